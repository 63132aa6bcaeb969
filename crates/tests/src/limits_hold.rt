// Each limit at its two ends, and one past them.
use limits::{Quantity, is_rate};
use terms::quote::{Prices, Quote};

// A quantity, and a number below its least, its least, its most, and a number above it.
const COUNTED_FROM_ONE: [(Quantity, [u64; 4]); 6] = [
    (Quantity::Account, [0, 1, 8, 9]),
    (Quantity::Instrument, [0, 1, 8, 9]),
    (Quantity::Volume, [0, 1, 10_000, 10_001]),
    (Quantity::Leverage, [0, 1, 500, 501]),
    (Quantity::Day, [0, 1, 10_000, 10_001]),
    (Quantity::Ticket, [0, 1, 9_999, 10_000]),
];

#[test]
fn numbers_counted_from_one(rt: HostRuntime) {
    for (quantity, numbers) in COUNTED_FROM_ONE {
        assert_eq!(rt;
            numbers.map(|n| quantity.admits(n)),
            [false, true, true, false]
        );
    }
}

const PRICES_AND_MONEY: [(Quantity, [u64; 4]); 2] = [
    (Quantity::Price, [999, 1_000, 1_000_000, 1_000_001]),
    (
        Quantity::Payment,
        [0, 1, 1_000_000_000_000, 1_000_000_000_001],
    ),
];

#[test]
fn prices_and_money(rt: HostRuntime) {
    for (quantity, numbers) in PRICES_AND_MONEY {
        assert_eq!(rt;
            numbers.map(|n| quantity.admits(n)),
            [false, true, true, false]
        );
    }
    assert_eq!(rt;
        [-10_001, -10_000, 10_000, 10_001].map(is_rate),
        [false, true, true, false]
    );
}

// A quantity, 0, its most, and a number above it.
const COUNTED_FROM_ZERO: [(Quantity, [u64; 3]); 5] = [
    (Quantity::Percentage, [0, 100, 101]),
    (Quantity::Distance, [0, 10_000, 10_001]),
    (Quantity::Time, [0, 2_000_000_000, 2_000_000_001]),
    (Quantity::Kind, [0, 255, 256]),
    (Quantity::Size, [0, 1_000_000, 1_000_001]),
];

#[test]
fn numbers_counted_from_zero(rt: HostRuntime) {
    for (quantity, numbers) in COUNTED_FROM_ZERO {
        assert_eq!(rt; numbers.map(|n| quantity.admits(n)), [true, true, false]);
    }
}

// Bid, ask, and whether they make a quote.
const QUOTES: [(u32, u32, bool); 7] = [
    (1_000, 1_000_000, true),
    (13_500, 13_500, true),
    (13_501, 13_500, false),
    (999, 13_500, false),
    (13_500, 1_000_001, false),
    (0, 0, false),
    (4_294_967_295, 4_294_967_295, false),
];

#[test]
fn quotes(rt: HostRuntime) {
    for (bid, ask, made) in QUOTES {
        let quote = Quote::try_from(Prices { bid, ask });
        assert_eq!(rt; quote.is_ok(), made);
    }
}
