// A row of the instrument table.
ghost use Rattle.std.specs.Prelude.{◌≡◌};
ghost use Rattle.std.specs.Option.{option_map};
ghost use Rattle.terms.specs.Quotes.{prices_of};
ghost use Rattle.market.specs.Instruments.{present, hedge_share};

use crate::listing::Listing;
use terms::quote::{Prices, Quote};

// Prices are plain numbers here: a quote is made of them only after a check.
#[derive(Clone, Copy)]
pub struct Instrument {
    pub listing: Option<Listing>,
    pub prices: Option<Prices>,
}

impl Instrument {
    // The present quote, where there is one.
    pub fn quote(self) -> Option<Quote>
        ensures { option_map prices_of result ≡ present self }
    {
        self.prices.and_then(|prices| Quote::try_from(prices).ok())
    }

    // The hedge share in percent, and 0 where nothing is listed.
    pub fn hedge_share(self) -> u8
        ensures { result ≡ hedge_share self }
    {
        self.listing.map_or(0, |listing| listing.hedge)
    }
}
