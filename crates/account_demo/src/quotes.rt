// The market of the print-out: three instruments, one of each of the unit's kinds, and their quotes in order.
ghost use Rattle.std.specs.Prelude.{◌≡◌};
ghost use Rattle.account_demo.specs.Client.{client_market};

use market::listing::Listing;
use market::market::Market;
use terms::contract::Contract;

const DIRECT: Listing = Listing {
    contract: Contract {
        number: 0,
        size: 10,
        percentage: 0,
    },
    near: 30,
    hedge: 50,
    buy_swap: -250,
    sell_swap: 100,
};

const INDIRECT: Listing = Listing {
    contract: Contract {
        number: 1,
        size: 100_000,
        percentage: 0,
    },
    near: 10,
    hedge: 0,
    buy_swap: 40,
    sell_swap: -90,
};

const SHARE: Listing = Listing {
    contract: Contract {
        number: 3,
        size: 1,
        percentage: 5,
    },
    near: 50,
    hedge: 100,
    buy_swap: -30,
    sell_swap: -30,
};

// Instrument, bid and ask.
pub const QUOTES: [(u8, u32, u32); 5] = [
    (1, 13_500, 13_502),
    (2, 8_137, 8_139),
    (3, 24_900, 24_950),
    (1, 13_384, 13_386),
    (1, 13_530, 13_532),
];

// Everything listed, and nothing quoted yet.
pub fn listed_market() -> Market
    ensures { result ≡ client_market }
{
    let mut market = Market::new();
    market.list(1, DIRECT);
    market.list(2, INDIRECT);
    market.list(3, SHARE);
    market
}
