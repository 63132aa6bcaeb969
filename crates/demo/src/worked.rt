// The worked deal: three positions, and what a closing rule is told of them.
ghost use Rattle.std.specs.Prelude.{◌≡◌};
ghost use Rattle.rules.specs.Closing.{Told};
ghost use Rattle.demo.specs.WorkedDeal.{worked_candidates};

use crate::position::Position;
use rules::candidate::Candidate;
use terms::contract::Contract;
use terms::side::Side;

pub const LEVERAGE: u32 = 100;

// Kind, position, and the price at which it could be closed.
pub const POSITIONS: [(&str, Position, u32); 3] = [
    (
        "indirect",
        Position {
            contract: Contract {
                number: 1,
                size: 100_000,
                percentage: 0,
            },
            ticket: 1,
            side: Side::Buy,
            volume: 1,
            opened: 8_100,
        },
        8_137,
    ),
    (
        "direct",
        Position {
            contract: Contract {
                number: 0,
                size: 10,
                percentage: 0,
            },
            ticket: 2,
            side: Side::Buy,
            volume: 50,
            opened: 13_502,
        },
        13_384,
    ),
    (
        "share",
        Position {
            contract: Contract {
                number: 3,
                size: 1,
                percentage: 5,
            },
            ticket: 3,
            side: Side::Sell,
            volume: 20,
            opened: 25_000,
        },
        25_040,
    ),
];

// The positions as a closing rule is told of them.
pub fn candidates() -> [Candidate; 3]
    ensures value { result ≡ worked_candidates }
    ensures told { Told result }
{
    POSITIONS.map(|(_, position, price)| position.candidate(LEVERAGE, price))
}
