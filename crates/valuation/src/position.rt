// One position at present prices.
ghost use Rattle.std.specs.Prelude.{◌≡◌};
ghost use Rattle.valuation.specs.Valued.{result_now, own_margin, valued};

use crate::worth::Valuation;
use kinds::deal::{Deal, Holding};
use kinds::kind::ContractKind;
use market::instrument::Instrument;
use positions::position::OpenPosition;
use terms::side::Side;
use tickets::ticket::{Ticket, TicketState};

// The payment for a closing at the present quote; nothing where its instrument has no listing or no price.
pub fn result_now<K: ContractKind>(
    kinds: &K,
    row: Instrument,
    side: Side,
    price: u32,
    volume: u32,
) -> i64
    ensures { result ≡ result_now (K.pays kinds.now) row side price volume }
{
    match (row.listing, row.quote()) {
        (Some(listing), Some(quote)) => {
            let deal = Deal {
                side,
                opened: price,
                closed: quote.closing(side),
                volume,
            };
            kinds.payment(listing.contract, deal)
        }
        _ => 0,
    }
}

// What margin a position needs by itself.
pub fn own_margin<K: ContractKind>(kinds: &K, row: Instrument, holding: Holding) -> u64
    ensures { result ≡ own_margin (K.needs kinds.now) row holding.leverage holding.opened holding.volume }
{
    row.listing
        .map_or(0, |listing| kinds.margin(listing.contract, holding))
}

impl<K: ContractKind> Valuation<'_, K> {
    // A ticket at present prices, where it is a position.
    pub fn position(self, leverage: u32, ticket: Ticket) -> Option<OpenPosition>
        ensures { result ≡ valued (K.pays self.entry.kinds.now) (K.needs self.entry.kinds.now) self.entry.market.now leverage ticket }
    {
        let TicketState::Position { side, price } = ticket.state else {
            return None;
        };
        let row = self.market.instrument(ticket.instrument);
        let holding = Holding {
            leverage,
            opened: price,
            volume: ticket.volume,
        };
        Some(OpenPosition {
            ticket: ticket.number,
            instrument: ticket.instrument,
            side,
            result: result_now(self.kinds, row, side, price, ticket.volume),
            margin: own_margin(self.kinds, row, holding),
        })
    }
}
