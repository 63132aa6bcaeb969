// Tickets of a list, by number: functions beside the table's methods, each with its lemmas, so that the methods are proved by search.
ghost use Rattle.std.specs.Prelude.{◌≡◌, ℕ, ◌==◌, true, position};
ghost use Rattle.fixed.specs.Items.{items};
ghost use Rattle.tickets.specs.Lists.{HasNumber, IsInside, sound, lookup, replaced, without};

use crate::ticket::Ticket;
use fixed::FixedList;

// The first place of a number.
fn place_of(tickets: &[Ticket], number: u16) -> Option<usize>
    ensures { result ≡ position (λ t. t.number == number) tickets.now }
{
    tickets.iter().position(|ticket| ticket.number == number)
}

// The ticket of a number, with what its type does not say, as `Table::ticket` promises it.
pub fn ticket_of(tickets: &[Ticket], number: u16) -> Option<Ticket>
    ensures value { result ≡ lookup number tickets.now }
    ensures number { HasNumber number result }
    ensures inside { (used : ℕ) → sound used tickets.now ≡ true → IsInside result }
{
    tickets
        .iter()
        .find(|ticket| ticket.number == number)
        .copied()
}

// Puts a ticket in the place of the one of its number, where there is one.
pub fn put_in_place<const N: usize>(tickets: &mut FixedList<Ticket, N>, ticket: Ticket)
    requires { (used : ℕ) × (sound used (items tickets.old) ≡ true) }
    ensures { items tickets.new ≡ replaced ticket (items tickets.old) }
{
    if let Some(place) = place_of(tickets.as_slice(), ticket.number) {
        tickets.set(place, ticket);
    }
}

// Takes the ticket of a number out; the others stay in their order.
pub fn keep_others<const N: usize>(tickets: &mut FixedList<Ticket, N>, number: u16)
    ensures { items tickets.new ≡ without number (items tickets.old) }
{
    tickets.retain(|ticket| ticket.number != number);
}
