// The orders of an account that wait for their levels.
use account::account::Account;
use std::fmt;
use tickets::ticket::TicketState;

#[derive(Clone, Copy)]
pub struct OrderTable {
    pub account: Account,
}

impl fmt::Display for OrderTable {
    fn fmt<W: fmt::Write>(&self, f: &mut fmt::Formatter<W>) -> fmt::Result {
        writeln!(f, "Orders waiting")?;
        writeln!(f, "  ticket  instrument  type        volume   level")?;
        for ticket in self.account.tickets() {
            if let TicketState::Pending { order, level, .. } = ticket.state {
                writeln!(
                    f,
                    "  {:>6}  {:>10}  {:<10}  {:>6}  {:>6}",
                    ticket.number, ticket.instrument, order, ticket.volume, level
                )?;
            }
        }
        Ok(())
    }
}
