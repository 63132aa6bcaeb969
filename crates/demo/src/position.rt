// A client's positions on paper, one in an instrument of each kind.
ghost use Rattle.std.specs.Prelude.{◌≡◌};
ghost use Rattle.demo.specs.WorkedDeal.{result_of, margin_of, candidate_of};

use joined::unit::{unit_margin, unit_payment};
use kinds::deal::{Deal, Holding};
use rules::candidate::Candidate;
use terms::contract::Contract;
use terms::side::Side;

#[derive(Clone, Copy)]
pub struct Position {
    pub contract: Contract,
    pub ticket: u16,
    pub side: Side,
    pub volume: u32,
    pub opened: u32,
}

impl Position {
    // What closing at a price would pay, were the position on that side.
    pub fn result(self, side: Side, closed: u32) -> i64
        ensures { result ≡ result_of self side closed }
    {
        let deal = Deal {
            side,
            opened: self.opened,
            closed,
            volume: self.volume,
        };
        unit_payment(self.contract, deal)
    }

    pub fn margin(self, leverage: u32) -> u64
        ensures { result ≡ margin_of self leverage }
    {
        let holding = Holding {
            leverage,
            opened: self.opened,
            volume: self.volume,
        };
        unit_margin(self.contract, holding)
    }

    // The position as a closing rule is told of it; no `From`, since leverage and closing price are no part of a position on paper.
    pub fn candidate(self, leverage: u32, closed: u32) -> Candidate
        ensures { result ≡ candidate_of self leverage closed }
    {
        Candidate {
            ticket: self.ticket,
            result: self.result(self.side, closed),
            margin: self.margin(leverage),
        }
    }
}
