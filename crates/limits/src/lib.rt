// The limits of the numbers that calls bring: for each quantity a range, and a test.

#![tactic(auto)]

ghost use Rattle.std.specs.Prelude.{◌≡◌};
ghost use Rattle.limits.specs.Bounds.{rate_ok};
ghost use Rattle.limits.specs.Quantities.{admits};

pub const ACCOUNTS: u64 = 8;

pub const LIVE_TICKETS: usize = 32;

pub const INSTRUMENTS: u64 = 8;

pub const MIN_PRICE: u64 = 1_000;

pub const MAX_PRICE: u64 = 1_000_000;

pub const MAX_VOLUME: u64 = 10_000;

pub const MAX_LEVERAGE: u64 = 500;

pub const MAX_PERCENTAGE: u64 = 100;

pub const MAX_DISTANCE: u64 = 10_000;

pub const MAX_RATE: i64 = 10_000;

pub const MAX_PAYMENT: u64 = 1_000_000_000_000;

pub const MAX_PAID_IN: u64 = 1_000_000_000_000_000;

pub const MAX_TIME: u64 = 2_000_000_000;

pub const MAX_DAY: u64 = 10_000;

pub const MAX_TICKET: u64 = 9_999;

pub const MAX_KIND: u64 = 255;

pub const MAX_SIZE: u64 = 1_000_000;

// What a number that a call brings may stand for.
#[derive(Clone, Copy)]
pub enum Quantity {
    Account,
    Instrument,
    // A price or a level.
    Price,
    Volume,
    Leverage,
    // A stop-out level, a hedge share or a contract's percentage.
    Percentage,
    // A near distance or a deviation.
    Distance,
    // One payment.
    Payment,
    // All accepted payments into one account.
    PaidIn,
    Time,
    Day,
    Ticket,
    // The number of a contract kind.
    Kind,
    Size,
}

impl Quantity {
    pub fn admits(self, n: u64) -> bool
        ensures { result ≡ admits self n }
    {
        match self {
            Quantity::Account => (1..=ACCOUNTS).contains(&n),
            Quantity::Instrument => (1..=INSTRUMENTS).contains(&n),
            Quantity::Price => (MIN_PRICE..=MAX_PRICE).contains(&n),
            Quantity::Volume => (1..=MAX_VOLUME).contains(&n),
            Quantity::Leverage => (1..=MAX_LEVERAGE).contains(&n),
            Quantity::Percentage => (0..=MAX_PERCENTAGE).contains(&n),
            Quantity::Distance => (0..=MAX_DISTANCE).contains(&n),
            Quantity::Payment => (1..=MAX_PAYMENT).contains(&n),
            Quantity::PaidIn => (0..=MAX_PAID_IN).contains(&n),
            Quantity::Time => (0..=MAX_TIME).contains(&n),
            Quantity::Day => (1..=MAX_DAY).contains(&n),
            Quantity::Ticket => (1..=MAX_TICKET).contains(&n),
            Quantity::Kind => (0..=MAX_KIND).contains(&n),
            Quantity::Size => (0..=MAX_SIZE).contains(&n),
        }
    }
}

// A swap rate is the one signed quantity.
pub fn is_rate(z: i64) -> bool
    ensures { result ≡ rate_ok z }
{
    (-MAX_RATE..=MAX_RATE).contains(&z)
}
