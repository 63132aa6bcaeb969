// The instrument table, the present time and the last day.
ghost use Rattle.std.specs.Prelude.{◌≡◌};
ghost use Rattle.market.specs.declared.instrument.Instrument.{Instrument};
ghost use Rattle.market.specs.Instruments.{place};
ghost use Rattle.market.specs.Markets.{no_market, instrument, with_instrument, listed, priced};

use crate::instrument::Instrument;
use crate::listing::Listing;
use terms::quote::Prices;

// Instrument 1 has the first row. No day has come before the first rollover.
#[derive(Clone, Copy)]
pub struct Market {
    pub instruments: [Instrument; 8],
    pub time: u32,
    pub day: Option<u16>,
}

const UNLISTED: Instrument = Instrument {
    listing: None,
    prices: None,
};

impl Market {
    // Nothing is listed, and the time is 0.
    pub fn new() -> Market
        ensures { result ≡ no_market }
    {
        Market {
            instruments: [UNLISTED; 8],
            time: 0,
            day: None,
        }
    }

    // The row of an instrument, and an unlisted one for every number that no instrument has.
    pub fn instrument(&self, number: u8) -> Instrument
        ensures { result ≡ instrument number self.now }
    {
        place_of(number)
            .and_then(|place| self.instruments.get(place))
            .copied()
            .unwrap_or(UNLISTED)
    }

    // Lists an instrument.
    pub fn list(&mut self, number: u8, listing: Listing)
        ensures { self.new ≡ listed number listing self.old }
    {
        self.change(
            number,
            |row| Instrument {
                listing: Some(listing),
                ..row
            },
        );
    }

    // Makes prices the present ones of an instrument.
    pub fn set_prices(&mut self, number: u8, prices: Prices)
        ensures { self.new ≡ priced number prices self.old }
    {
        self.change(
            number,
            |row| Instrument {
                prices: Some(prices),
                ..row
            },
        );
    }

    // Changes the row of an instrument; a number that no instrument has changes nothing.
    fn change<F: FnOnce(Instrument) -> Instrument>(&mut self, number: u8, change: F)
        requires { F.pre change (instrument number self.old) }
        ensures { (row : Instrument) × F.post change (instrument number self.old) row × (self.new ≡ with_instrument number row self.old) }
    {
        let row = change(self.instrument(number));
        match place_of(number) {
            Some(place) if place < self.instruments.len() => self.instruments[place] = row,
            Some(_) | None => {}
        }
    }
}

// The first row is instrument 1's.
fn place_of(number: u8) -> Option<usize>
    ensures { result ≡ place number }
{
    usize::from(number).checked_sub(1)
}
