// The statement of an account: its open positions, and what it is worth.
use account::account::Account;
use joined::unit::unit_kinds;
use market::market::Market;
use std::fmt;
use tickets::ticket::TicketState;
use valuation::worth::Valuation;

#[derive(Clone, Copy)]
pub struct Statement {
    pub account: Account,
    pub market: Market,
}

impl fmt::Display for Statement {
    fn fmt<W: fmt::Write>(&self, f: &mut fmt::Formatter<W>) -> fmt::Result {
        let kinds = unit_kinds();
        let valuation = Valuation::new(&kinds, &self.market);
        let leverage = self.account.leverage();
        writeln!(
            f,
            "  ticket  instrument  side  volume  opened   result  margin"
        )?;
        for ticket in self.account.tickets() {
            if let (TicketState::Position { side, price }, Some(position)) = (
                ticket.state,
                valuation.position(leverage, *ticket),
            ) {
                writeln!(
                    f,
                    "  {:>6}  {:>10}  {:<4}  {:>6}  {:>6}  {:>7}  {:>6}",
                    ticket.number,
                    ticket.instrument,
                    side,
                    ticket.volume,
                    price,
                    position.result,
                    position.margin
                )?;
            }
        }
        writeln!(
            f,
            "  balance {}  equity {}  margin {}  free margin {}",
            self.account.balance(),
            valuation.equity(&self.account),
            valuation.margin(&self.account),
            valuation.free_margin(&self.account)
        )
    }
}
