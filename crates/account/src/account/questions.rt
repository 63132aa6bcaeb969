// What an account answers.
ghost use Rattle.std.specs.Prelude.{◌≡◌, ◌≤◌, true, length, unsigned_abs};
ghost use Rattle.limits.specs.Bounds.{Leverage};
ghost use Rattle.tickets.specs.Lists.{HasNumber, IsInside, room, sound, lookup};
ghost use Rattle.account.specs.Models.{no_dealings};
ghost use Rattle.account.specs.Accounts.{model};

use crate::account::Account;
use tickets::table::Table;
use tickets::ticket::Ticket;

impl Account {
    // An account without money, tickets or nights.
    pub fn new(leverage: u32, stop_out: u8) -> Account
        requires leverage { Leverage leverage }
        requires stop_out { stop_out ≤ 100 }
        ensures { model result ≡ no_dealings leverage stop_out }
    {
        Account {
            leverage,
            stop_out,
            balance: 0,
            paid_in: 0,
            nights: 0,
            table: Table::new(),
        }
    }

    pub fn leverage(&self) -> u32
        ensures { result ≡ (model self.now).leverage }
    {
        self.leverage
    }

    // The stop-out level in percent.
    pub fn stop_out(&self) -> u8
        ensures { result ≡ (model self.now).stop_out }
    {
        self.stop_out
    }

    pub fn balance(&self) -> i64
        ensures value { result ≡ (model self.now).balance }
        ensures size { unsigned_abs result ≤ 12000000000000000 }
    {
        self.balance
    }

    // All that was ever paid in.
    pub fn paid_in(&self) -> u64
        ensures { result ≡ (model self.now).paid_in }
    {
        self.paid_in
    }

    // The live tickets, by rising number, with the bound that a slice's type does not have.
    pub fn tickets(&self) -> &[Ticket]
        ensures value { result.now ≡ (model self.now).tickets }
        ensures few { length result.now ≤ 32 }
        ensures sound { sound (model self.now).used result.now ≡ true }
    {
        self.table.tickets()
    }

    // The ticket of a number, where it is live, with what its type does not say, as `Table::ticket` promises it.
    pub fn ticket(&self, number: u16) -> Option<Ticket>
        ensures value { result ≡ lookup number (model self.now).tickets }
        ensures number { HasNumber number result }
        ensures inside { IsInside result }
    {
        self.table.ticket(number)
    }

    // Whether another ticket has a place and a number.
    pub fn has_room(&self) -> bool
        ensures { result ≡ room (model self.now).tickets (model self.now).used }
    {
        self.table.has_room()
    }
}
