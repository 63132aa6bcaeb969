// What a kind is asked about: a closing, or a position whose margin is asked.
ghost use Rattle.std.specs.Prelude.{◌≡◌};
ghost use Rattle.kinds.specs.Ranges.{deal_ok, holding_ok};

use limits::Quantity;
use terms::side::Side;

// A closing of a position: on which side it is, its opening and closing price, and how much is closed.
#[derive(Clone, Copy)]
pub struct Deal {
    pub side: Side,
    pub opened: u32,
    pub closed: u32,
    pub volume: u32,
}

impl Deal {
    // Whether its numbers are inside their limits.
    pub fn is_inside(self) -> bool
        ensures { result ≡ deal_ok self.opened self.closed self.volume }
    {
        Quantity::Price.admits(u64::from(self.opened))
            && Quantity::Price.admits(u64::from(self.closed))
            && Quantity::Volume.admits(u64::from(self.volume))
    }
}

// A position whose margin is asked, and the leverage of its account.
#[derive(Clone, Copy)]
pub struct Holding {
    pub leverage: u32,
    pub opened: u32,
    pub volume: u32,
}

impl Holding {
    // Whether its numbers are inside their limits: other quantities than those of a deal, and so a test of its own.
    pub fn is_inside(self) -> bool
        ensures { result ≡ holding_ok self.leverage self.opened self.volume }
    {
        Quantity::Leverage.admits(u64::from(self.leverage))
            && Quantity::Price.admits(u64::from(self.opened))
            && Quantity::Volume.admits(u64::from(self.volume))
    }
}
