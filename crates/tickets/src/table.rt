// The live tickets of an account by rising number, in fixed memory, and the last number given.
ghost use Rattle.std.specs.Prelude.{◌≡◌, ◌≤◌, true};
ghost use Rattle.fixed.specs.Items.{items};
ghost use Rattle.tickets.specs.Lists.{sound};

use crate::ticket::Ticket;
use fixed::FixedList;
use limits::LIVE_TICKETS;

mod methods;

#[derive(Clone, Copy)]
pub struct Table {
    tickets: FixedList<Ticket, LIVE_TICKETS>,
    used: u16,
    ghost given: { used ≤ 9999 },
    ghost sound: { sound used (items tickets) ≡ true },
}
