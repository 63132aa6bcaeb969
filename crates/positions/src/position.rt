// An open position at present prices.
ghost use Rattle.std.specs.Prelude.{◌≡◌};
ghost use Rattle.positions.specs.Positions.{candidate};
ghost use Rattle.positions.specs.Margins.{is_on};

use rules::candidate::Candidate;
use terms::side::Side;

// The result is the payment for a closing at the present quote; the margin is its own, without any hedge.
#[derive(Clone, Copy)]
pub struct OpenPosition {
    pub ticket: u16,
    pub instrument: u8,
    pub side: Side,
    pub result: i64,
    pub margin: u64,
}

impl OpenPosition {
    // Whether the position is one of that instrument and side.
    pub fn is_on(self, instrument: u8, side: Side) -> bool
        ensures { result ≡ is_on instrument side self }
    {
        self.instrument == instrument && self.side == side
    }
}

// The position as a closing rule is told of it.
impl From<OpenPosition> for Candidate {
    ghost from_gives = { λ position told. told ≡ candidate position };

    fn from(position: OpenPosition) -> Candidate {
        Candidate {
            ticket: position.ticket,
            result: position.result,
            margin: position.margin,
        }
    }
}
