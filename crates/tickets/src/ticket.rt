// A ticket, in one of its two states: an order that waits, or a position.
ghost use Rattle.std.specs.Prelude.{◌≡◌, ◌<◌, ◌≤◌, true};
ghost use Rattle.limits.specs.Bounds.{price_ok};
ghost use Rattle.terms.specs.Protections.{optionally, protection_ok};
ghost use Rattle.tickets.specs.Tickets.{entry_ok, inside, moved, modified, reduced, ticket_made};

use terms::order::OrderType;
use terms::protection::Protection;
use terms::side::Side;

// An order waits for its level, until its expiry where it has one; a position was opened at its price.
#[derive(Clone, Copy)]
pub enum TicketState {
    Pending {
        order: OrderType,
        level: u32,
        expiry: Option<u32>,
    },
    Position {
        side: Side,
        price: u32,
    },
}

impl TicketState {
    fn moved(self, level: Option<u32>) -> TicketState
        ensures { result ≡ moved level self }
    {
        match self {
            TicketState::Pending {
                order,
                level: old,
                expiry,
            } => TicketState::Pending {
                order,
                level: level.unwrap_or(old),
                expiry,
            },
            TicketState::Position { .. } => self,
        }
    }
}

// What a ticket is about, apart from its number, inside the limits by its type.
#[derive(Clone, Copy)]
pub struct TicketDetails {
    pub instrument: u8,
    pub volume: u32,
    pub protection: Protection,
    pub state: TicketState,
    ghost inside: { entry_ok instrument volume protection state ≡ true },
}

// Its details with a number, but field by field: no invariant keeps a ticket inside its limits, since `modified` takes any level and would have to ask for one inside.
#[derive(Clone, Copy)]
pub struct Ticket {
    pub number: u16,
    pub instrument: u8,
    pub volume: u32,
    pub protection: Protection,
    pub state: TicketState,
}

impl Ticket {
    pub fn new(number: u16, details: TicketDetails) -> Ticket
        requires number { (1 ≤ number) × (number ≤ 9999) }
        ensures value { result ≡ ticket_made number details.instrument details.volume details.protection details.state }
        ensures inside { inside result ≡ true }
        ensures small { details.volume ≤ 10000 }
    {
        Ticket {
            number,
            instrument: details.instrument,
            volume: details.volume,
            protection: details.protection,
            state: details.state,
        }
    }

    // With another protection and, of an order, another level where one is given; inside its limits where these are.
    #[tactic(auto, using(crate::proofs::Limits::modified_inside))]
    pub fn modified(self, level: Option<u32>, protection: Protection) -> Ticket
        ensures value { result ≡ modified level protection self }
        ensures inside { inside self ≡ true → optionally price_ok level ≡ true → protection_ok protection ≡ true → inside result ≡ true }
    {
        Ticket {
            protection,
            state: self.state.moved(level),
            ..self
        }
    }

    // With that much less volume, inside its limits as it was.
    pub fn reduced(self, volume: u32) -> Ticket
        requires { volume < self.volume }
        ensures value { result ≡ reduced volume self }
        ensures inside { inside self ≡ true → inside result ≡ true }
    {
        Ticket {
            volume: self.volume - volume,
            ..self
        }
    }
}
