// The positions that would be closed first, were the account stopped out now.
ghost use Rattle.std.specs.Prelude.{◌≡◌};
ghost use Rattle.positions.specs.Held.{held};
ghost use Rattle.account_demo.specs.Named.{ticket_named};

use positions::positions::Positions;
use rules::closing::{ClosingRule, EarliestFirst, WorstFirst};
use std::fmt;

// The ticket of the position that a rule names, where there is a position.
fn ticket_named<C: ClosingRule>(rule: &C, positions: &Positions) -> Option<u16>
    ensures { result ≡ ticket_named (C.picks rule.now) (held positions.now) }
{
    if positions.len() == 0 {
        return None;
    }
    Some(rule.named(positions.candidates().as_slice()).ticket)
}

#[derive(Clone, Copy)]
pub struct ClosingTable {
    pub positions: Positions,
}

impl fmt::Display for ClosingTable {
    fn fmt<W: fmt::Write>(&self, f: &mut fmt::Formatter<W>) -> fmt::Result {
        writeln!(f, "First to close, were the account stopped out now")?;
        let named = [
            ("worst first", ticket_named(&WorstFirst, &self.positions)),
            (
                "earliest first",
                ticket_named(&EarliestFirst, &self.positions),
            ),
            ("largest margin", self.positions.heaviest()),
        ];
        for (name, ticket) in named {
            match ticket {
                Some(ticket) => writeln!(f, "  {:<14}  ticket {}", name, ticket)?,
                None => writeln!(f, "  {:<14}  none", name)?,
            }
        }
        Ok(())
    }
}
