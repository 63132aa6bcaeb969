// What the unit's kinds admit, pay and need, inside the limits and outside.
use joined::unit::{unit_admitted, unit_margin, unit_payment};
use kinds::deal::{Deal, Holding};
use terms::contract::Contract;
use terms::side::Side;

// Kind number, size, percentage, and whether the unit admits them.
const CONTRACTS: [(u8, u32, u8, bool); 16] = [
    (0, 0, 0, false),
    (0, 1, 0, true),
    (0, 100, 0, true),
    (0, 101, 0, false),
    (0, 10, 1, false),
    (1, 0, 0, false),
    (1, 100_000, 0, true),
    (1, 100_001, 0, false),
    (2, 10, 0, false),
    (3, 1, 1, true),
    (3, 100, 100, true),
    (3, 101, 1, false),
    (3, 10, 0, false),
    (3, 10, 101, false),
    (4, 10, 0, false),
    (255, 10, 5, false),
];

#[test]
fn admission(rt: HostRuntime) {
    for (number, size, percentage, admitted) in CONTRACTS {
        let contract = Contract {
            number,
            size,
            percentage,
        };
        assert_eq!(rt; unit_admitted(contract), admitted);
    }
}

// Kind number, size, percentage, leverage, price, volume, and the margin needed: rounded up, and 0 outside the limits.
const MARGINS: [(u8, u32, u8, u32, u32, u32, u64); 10] = [
    (0, 10, 0, 100, 13_502, 50, 67_510),
    (0, 1, 0, 500, 1_000, 1, 2),
    (0, 1, 0, 499, 1_000, 1, 3),
    (0, 100, 0, 1, 1_000_000, 10_000, 1_000_000_000_000),
    (0, 10, 0, 501, 13_502, 50, 0),
    (0, 10, 0, 0, 13_502, 50, 0),
    (0, 10, 0, 100, 999, 50, 0),
    (1, 100_000, 0, 3, 8_100, 1, 33_334),
    (3, 10, 5, 100, 13_502, 1, 6_751),
    (3, 1, 1, 100, 1_001, 1, 11),
];

#[test]
fn margins(rt: HostRuntime) {
    for (number, size, percentage, leverage, price, volume, margin) in MARGINS {
        let contract = Contract {
            number,
            size,
            percentage,
        };
        let holding = Holding {
            leverage,
            opened: price,
            volume,
        };
        assert_eq!(rt; unit_margin(contract, holding), margin);
    }
}

// Kind number, size, percentage, opening price, closing price, volume, and what a buy is paid.
const PAYMENTS: [(u8, u32, u8, u32, u32, u32, i64); 9] = [
    (0, 10, 0, 13_502, 13_500, 50, -1_000),
    (0, 100, 0, 1_000, 1_000_000, 10_000, 999_000_000_000),
    (0, 10, 0, 13_502, 13_502, 50, 0),
    (0, 10, 0, 13_502, 1_000_001, 50, 0),
    (0, 10, 0, 13_502, 13_602, 10_001, 0),
    (1, 100_000, 0, 8_100, 8_137, 1, 454),
    (1, 100_000, 0, 8_137, 8_100, 1, -456),
    (1, 100_000, 0, 1_000_000, 1_000, 10_000, -999_000_000_000),
    (3, 1, 5, 25_000, 25_040, 20, 800),
];

#[test]
fn payments(rt: HostRuntime) {
    for (number, size, percentage, opened, closed, volume, buy) in PAYMENTS {
        let contract = Contract {
            number,
            size,
            percentage,
        };
        let bought = Deal {
            side: Side::Buy,
            opened,
            closed,
            volume,
        };
        assert_eq!(rt; unit_payment(contract, bought), buy);
        let sold = Deal {
            side: Side::Sell,
            ..bought
        };
        assert_eq!(rt; unit_payment(contract, sold).checked_neg(), Some(buy));
    }
}
