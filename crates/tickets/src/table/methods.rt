// What a table holds, and how one ticket comes, changes or goes.
ghost use Rattle.std.specs.Prelude.{◌≡◌, ◌+◌, ◌<◌, ◌≤◌, true, [], ◌∷◌, ◌++◌, length};
ghost use Rattle.tickets.specs.Tickets.{inside, entry_ok, ticket_made};
ghost use Rattle.tickets.specs.Lists.{HasNumber, IsInside, OthersStay, room, sound, volumes, lookup, replaced, without, less, volume_of};
ghost use Rattle.tickets.specs.Tables.{live};

use crate::by_number::{keep_others, put_in_place, ticket_of};
use crate::table::Table;
use crate::ticket::{Ticket, TicketDetails, TicketState};
use fixed::FixedList;
use limits::{LIVE_TICKETS, MAX_TICKET};
use terms::order::OrderType;
use terms::protection::NO_PROTECTION;

// What an unused place holds.
const BLANK: Ticket = Ticket {
    number: 0,
    instrument: 0,
    volume: 0,
    protection: NO_PROTECTION,
    state: TicketState::Pending {
        order: OrderType::BuyLimit,
        level: 0,
        expiry: None,
    },
};

impl Table {
    #[tactic(auto, unfolding(crate::specs::Lists::sound))]
    pub fn new() -> Table
        ensures live { live result ≡ [] }
        ensures used { result.used ≡ 0 }
    {
        Table {
            tickets: FixedList::new(BLANK),
            used: 0,
        }
    }

    // Whether another ticket has a place and a number.
    pub fn has_room(&self) -> bool
        ensures { result ≡ room (live self.now) self.now.used }
    {
        self.tickets.len() < LIVE_TICKETS && u64::from(self.used) < MAX_TICKET
    }

    // The live tickets, by rising number. The bound is told of the slice, whose type has lost it; a list would show how they are kept.
    pub fn tickets(&self) -> &[Ticket]
        ensures value { result.now ≡ live self.now }
        ensures few { length result.now ≤ 32 }
        ensures sound { sound self.now.used result.now ≡ true }
    {
        self.tickets.as_slice()
    }

    // The ticket of a number, where it is live, with what a caller wants of it: a type that said so would be asked of `modified`, which takes any level.
    pub fn ticket(&self, number: u16) -> Option<Ticket>
        ensures value { result ≡ lookup number (live self.now) }
        ensures number { HasNumber number result }
        ensures inside { IsInside result }
    {
        ticket_of(self.tickets(), number)
    }

    // Gives the next number to a new ticket, and answers it.
    #[tactic(auto, using(crate::proofs::Changes::sound_after_push))]
    pub fn add(&mut self, details: TicketDetails) -> u16
        requires place { length (live self.old) < 32 }
        requires number { self.old.used < 9999 }
        ensures number { result ≡ self.old.used + 1 }
        ensures used { self.new.used ≡ result }
        ensures after { live self.new ≡ live self.old ++ (ticket_made result details.instrument details.volume details.protection details.state) ∷ [] }
        ensures volume { volumes (live self.new) ≡ volumes (live self.old) + details.volume }
        ensures small { details.volume ≤ 10000 }
    {
        let number = self.used + 1;
        self.tickets.push(Ticket::new(number, details));
        self.used = number;
        number
    }

    // Puts a ticket in the place of the one of its number, and touches no other. That others and the last number stay is said of two tables, so by no type.
    #[tactic(auto, using(crate::proofs::Changes::kept_by_replaced))]
    pub fn replace(&mut self, ticket: Ticket)
        requires { inside ticket ≡ true }
        ensures used { self.new.used ≡ self.old.used }
        ensures after { live self.new ≡ replaced ticket (live self.old) }
        ensures others { OthersStay ticket.number (live self.old) (live self.new) }
        ensures volume { volumes (live self.new) + volume_of (lookup ticket.number (live self.old)) ≤ volumes (live self.old) + ticket.volume }
    {
        put_in_place(&mut self.tickets, ticket);
    }

    // Takes the ticket of a number out; its place is free again. The others stay in their order, which is said of two tables as above.
    #[tactic(auto, using(crate::proofs::Changes::kept_by_without))]
    pub fn remove(&mut self, number: u16)
        ensures used { self.new.used ≡ self.old.used }
        ensures after { live self.new ≡ without number (live self.old) }
        ensures others { OthersStay number (live self.old) (live self.new) }
        ensures volume { volumes (live self.new) + volume_of (lookup number (live self.old)) ≤ volumes (live self.old) }
    {
        keep_others(&mut self.tickets, number);
    }

    // Takes volume off the ticket of a number, and takes the ticket out with the last of it. That others stay is said as above.
    pub fn reduce(&mut self, number: u16, volume: u32)
        ensures used { self.new.used ≡ self.old.used }
        ensures after { live self.new ≡ less number volume (live self.old) }
        ensures others { OthersStay number (live self.old) (live self.new) }
        ensures freed { volume ≤ volume_of (lookup number (live self.old)) → volumes (live self.new) + volume ≤ volumes (live self.old) }
    {
        match self.ticket(number) {
            Some(ticket) if volume < ticket.volume => self.replace(ticket.reduced(volume)),
            Some(_) => self.remove(number),
            None => {}
        }
    }
}
