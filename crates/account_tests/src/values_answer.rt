// What an account is worth.
use account::account::Account;
use joined::unit::unit_kinds;
use market::listing::Listing;
use market::market::Market;
use terms::contract::Contract;
use terms::protection::NO_PROTECTION;
use terms::quote::Prices;
use terms::side::Side;
use tickets::ticket::{TicketDetails, TicketState};
use valuation::worth::Valuation;

const BOUGHT: TicketDetails = TicketDetails {
    instrument: 1,
    volume: 3,
    protection: NO_PROTECTION,
    state: TicketState::Position {
        side: Side::Buy,
        price: 1_001,
    },
};

const SOLD: TicketDetails = TicketDetails {
    instrument: 1,
    volume: 1,
    protection: NO_PROTECTION,
    state: TicketState::Position {
        side: Side::Sell,
        price: 1_003,
    },
};

// Opened at the prices that they are valued at.
const BOUGHT_EVEN: TicketDetails = TicketDetails {
    instrument: 1,
    volume: 1,
    protection: NO_PROTECTION,
    state: TicketState::Position {
        side: Side::Buy,
        price: 1_000,
    },
};

const SOLD_EVEN: TicketDetails = TicketDetails {
    instrument: 1,
    volume: 3,
    protection: NO_PROTECTION,
    state: TicketState::Position {
        side: Side::Sell,
        price: 1_000,
    },
};

const BOUGHT_ON_8: TicketDetails = TicketDetails {
    instrument: 8,
    volume: 5,
    protection: NO_PROTECTION,
    state: TicketState::Position {
        side: Side::Buy,
        price: 1_000,
    },
};

const SOLD_ON_8: TicketDetails = TicketDetails {
    instrument: 8,
    volume: 5,
    protection: NO_PROTECTION,
    state: TicketState::Position {
        side: Side::Sell,
        price: 1_000,
    },
};

// Hedge share of instrument 1, its bid and ask; then equity, margin and free margin of a buy of 3 at 1,001 and a sell of 1
// at 1,003, of size 1 and leverage 7, with 100 paid in: margins 429 and 144.
const VALUES: [(u8, u32, u32, i64, u64, i64); 6] = [
    (0, 1_001, 1_003, 100, 429, -329),
    (1, 1_001, 1_003, 100, 430, -330),
    (50, 1_000, 1_001, 99, 501, -402),
    (99, 1_001, 1_002, 101, 571, -470),
    (100, 1_002, 1_002, 104, 573, -469),
    (100, 1_010, 1_000, 100, 573, -473),
];

#[test]
fn hedged_values(rt: HostRuntime) {
    for (hedge, bid, ask, worth, needed, free) in VALUES {
        let mut market = Market::new();
        let listing = Listing {
            contract: Contract {
                number: 0,
                size: 1,
                percentage: 0,
            },
            near: 0,
            hedge,
            buy_swap: 0,
            sell_swap: 0,
        };
        market.list(1, listing);
        market.set_prices(1, Prices { bid, ask });
        let kinds = unit_kinds();
        let valuation = Valuation::new(&kinds, &market);
        let mut account = Account::new(7, 0);
        account.pay_in(100);
        let _ = account.add(BOUGHT);
        let _ = account.add(SOLD);
        assert_eq!(rt; valuation.equity(&account), worth);
        assert_eq!(rt; valuation.margin(&account), needed);
        assert_eq!(rt; valuation.free_margin(&account), free);
        assert_eq!(rt; valuation.heaviest(&account), Some(1));
    }
}

// Sells above buys on instrument 1, hedged at half; two equal positions on instrument 8, not hedged; prices as opened.
#[test]
fn several_instruments(rt: HostRuntime) {
    let mut market = Market::new();
    for (instrument, hedge) in [(1, 50), (8, 0)] {
        let listing = Listing {
            contract: Contract {
                number: 3,
                size: 1,
                percentage: 10,
            },
            near: 0,
            hedge,
            buy_swap: 0,
            sell_swap: 0,
        };
        market.list(instrument, listing);
        let prices = Prices {
            bid: 1_000,
            ask: 1_000,
        };
        market.set_prices(instrument, prices);
    }
    let kinds = unit_kinds();
    let valuation = Valuation::new(&kinds, &market);
    let mut account = Account::new(1, 0);
    assert_eq!(rt; valuation.heaviest(&account), None);
    assert_eq!(rt; valuation.margin(&account), 0);
    let _ = account.add(BOUGHT_EVEN);
    let _ = account.add(SOLD_EVEN);
    assert_eq!(rt; valuation.margin(&account), 350);
    assert_eq!(rt; valuation.heaviest(&account), Some(2));
    let _ = account.add(BOUGHT_ON_8);
    let _ = account.add(SOLD_ON_8);
    assert_eq!(rt; valuation.margin(&account), 850);
    assert_eq!(rt; valuation.equity(&account), 0);
    assert_eq!(rt; valuation.free_margin(&account), -850);
}
