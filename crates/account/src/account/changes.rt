// The changes of which every dealing is made.
ghost use Rattle.std.specs.Prelude.{◌≡◌, ◌+◌, ◌*◌, ◌<◌, ◌≤◌, true, length, pos, ◌≤ℤ◌, unsigned_abs};
ghost use Rattle.tickets.specs.Tickets.{inside, entry_ok};
ghost use Rattle.tickets.specs.Lists.{OthersStay, lookup, volume_of};
ghost use Rattle.account.specs.Models.{after_pay_in, after_pay_out, added, changed, removed, closed, after_night};
ghost use Rattle.account.specs.Accounts.{model};

use crate::account::Account;
use crate::amounts::{minus, plus};
use tickets::ticket::{Ticket, TicketDetails};

impl Account {
    // The cast is proved to keep the amount, as in `minus`.
    pub fn pay_in(&mut self, amount: u64)
        requires { (model self.old).paid_in + amount ≤ 1000000000000000 }
        ensures { model self.new ≡ after_pay_in amount (model self.old) }
    {
        self.balance = plus(self.balance, amount as i64);
        self.paid_in += amount;
    }

    pub fn pay_out(&mut self, amount: u64)
        requires { pos amount ≤ℤ (model self.old).balance }
        ensures { model self.new ≡ after_pay_out amount (model self.old) }
    {
        self.balance = minus(self.balance, amount);
    }

    // Adds a ticket, and answers its number.
    pub fn add(&mut self, details: TicketDetails) -> u16
        requires place { length (model self.old).tickets < 32 }
        requires number { (model self.old).used < 9999 }
        ensures number { result ≡ (model self.old).used + 1 }
        ensures after { model self.new ≡ added details.instrument details.volume details.protection details.state (model self.old) }
    {
        self.table.add(details)
    }

    // Puts a ticket of no more volume in the place of the one of its number, and touches no other, which is said of two accounts and so by no type.
    pub fn change(&mut self, ticket: Ticket)
        requires inside { inside ticket ≡ true }
        requires volume { ticket.volume ≤ volume_of (lookup ticket.number (model self.old).tickets) }
        ensures after { model self.new ≡ changed ticket (model self.old) }
        ensures others { OthersStay ticket.number (model self.old).tickets (model self.new).tickets }
    {
        self.table.replace(ticket);
    }

    // Takes a ticket out; that the others stay is said of two accounts, as above.
    pub fn remove(&mut self, number: u16)
        ensures after { model self.new ≡ removed number (model self.old) }
        ensures others { OthersStay number (model self.old).tickets (model self.new).tickets }
    {
        self.table.remove(number);
    }

    // Takes volume off a ticket and pays a result, and takes the ticket out with the last of its volume. That it is a position, the caller has seen; that others stay is said as above.
    pub fn close(&mut self, number: u16, volume: u32, payment: i64)
        requires volume { volume ≤ volume_of (lookup number (model self.old).tickets) }
        requires payment { unsigned_abs payment ≤ volume * 100000000 }
        ensures after { model self.new ≡ closed number volume payment (model self.old) }
        ensures others { OthersStay number (model self.old).tickets (model self.new).tickets }
    {
        self.table.reduce(number, volume);
        self.balance = plus(self.balance, payment);
    }

    // Counts a night, and adds the swaps of all positions to the balance.
    pub fn pass_night(&mut self, swaps: i64)
        requires nights { (model self.old).nights < 10000 }
        requires swaps { unsigned_abs swaps ≤ 32000000 }
        ensures { model self.new ≡ after_night swaps (model self.old) }
    {
        self.balance = plus(self.balance, swaps);
        self.nights += 1;
    }
}
