// All open positions of an account, by rising ticket.
ghost use Rattle.terms.specs.Numbers.{Rising};
ghost use Rattle.fixed.specs.Items.{items};
ghost use Rattle.positions.specs.Positions.{ticket_numbers};
ghost use Rattle.positions.specs.Sizes.{Sized};

use crate::position::OpenPosition;
use fixed::FixedList;
use limits::LIVE_TICKETS;

mod margins;
mod methods;

// Few, of bounded size and by rising ticket by the type, so that no sum over them wraps and a closing rule can be told of them.
#[derive(Clone, Copy)]
pub struct Positions {
    list: FixedList<OpenPosition, LIVE_TICKETS>,
    ghost rising: { Rising (ticket_numbers (items list)) },
    ghost sized: { Sized (items list) },
}
