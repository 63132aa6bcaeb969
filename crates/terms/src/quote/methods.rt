// How a quote is made, and the prices that deals are made at.
ghost use Rattle.std.specs.Prelude.{◌≡◌};
ghost use Rattle.terms.specs.Levels.{market_price};
ghost use Rattle.limits.specs.Bounds.{Price};
ghost use Rattle.terms.specs.Quotes.{QuoteOf, prices_of, opening_price, closing_price};

use crate::level::LevelKind;
use crate::quote::{Prices, Quote};
use crate::refusal::Refusal;
use crate::side::Side;
use limits::Quantity;

// The quote of two prices, unless one is outside the limits or the bid is above the ask.
impl TryFrom<Prices> for Quote {
    type Error = Refusal;

    ghost try_from_gives = { QuoteOf };

    fn try_from(prices: Prices) -> Result<Quote, Refusal> {
        let Prices { bid, ask } = prices;
        let is_price = |n| Quantity::Price.admits(u64::from(n));
        if is_price(bid) && is_price(ask) && bid <= ask {
            Ok(Quote { prices })
        } else {
            Err(Refusal::OutsideLimits)
        }
    }
}

impl From<Quote> for Prices {
    ghost from_gives = { λ quote prices. prices ≡ prices_of quote };

    fn from(quote: Quote) -> Prices {
        quote.prices
    }
}

// Each price is promised inside its limits beside its value: a type of such prices would be asked of rules and kinds, which take any number.
impl Quote {
    // A buy opens at the ask, a sell at the bid.
    pub fn opening(self, side: Side) -> u32
        ensures value { result ≡ opening_price side (prices_of self) }
        ensures priced { Price result }
    {
        match side {
            Side::Buy => self.prices.ask,
            Side::Sell => self.prices.bid,
        }
    }

    // A buy closes at the bid, a sell at the ask.
    pub fn closing(self, side: Side) -> u32
        ensures value { result ≡ closing_price side (prices_of self) }
        ensures priced { Price result }
    {
        self.opening(side.opposite())
    }

    // The market price of a level.
    pub fn market(self, kind: LevelKind) -> u32
        ensures value { result ≡ market_price kind (prices_of self) }
        ensures priced { Price result }
    {
        kind.market(self.prices)
    }
}
