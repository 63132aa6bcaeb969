// Payments and margins of the unit's kinds. Each figure is a function of its own, since its contract states its numbers as a theorem.
ghost use Rattle.std.specs.Prelude.{◌≡◌, pos, negsuc};
ghost use Rattle.joined.specs.UnitKinds.{unit_pays, unit_needs};
ghost use Rattle.terms.specs.declared.side.Side.TheVariants.{Buy, Sell};
ghost use Rattle.figures.specs.Cases.{direct_of_10, indirect_of_100000};

use joined::unit::{unit_margin, unit_payment};
use kinds::deal::{Deal, Holding};
use terms::contract::Contract;
use terms::side::Side;

const DIRECT: Contract = Contract {
    number: 0,
    size: 10,
    percentage: 0,
};

const INDIRECT: Contract = Contract {
    number: 1,
    size: 100_000,
    percentage: 0,
};

const RISE: Deal = Deal {
    side: Side::Buy,
    opened: 8_100,
    closed: 8_137,
    volume: 1,
};

const HOLDING: Holding = Holding {
    leverage: 100,
    opened: 13_502,
    volume: 100,
};

pub fn indirect_buy_that_rose() -> i64
    ensures answered { result ≡ pos 454 }
    ensures defined { unit_pays indirect_of_100000 Buy 8100 8137 1 ≡ pos 454 }
{
    unit_payment(INDIRECT, RISE)
}

pub fn indirect_sell_that_rose() -> i64
    ensures answered { result ≡ negsuc 453 }
    ensures defined { unit_pays indirect_of_100000 Sell 8100 8137 1 ≡ negsuc 453 }
{
    let sold = Deal {
        side: Side::Sell,
        ..RISE
    };
    unit_payment(INDIRECT, sold)
}

pub fn indirect_buy_that_fell() -> i64
    ensures answered { result ≡ negsuc 455 }
    ensures defined { unit_pays indirect_of_100000 Buy 8137 8100 1 ≡ negsuc 455 }
{
    let fall = Deal {
        opened: 8_137,
        closed: 8_100,
        ..RISE
    };
    unit_payment(INDIRECT, fall)
}

pub fn direct_margin_of_100() -> u64
    ensures answered { result ≡ 135020 }
    ensures defined { unit_needs direct_of_10 100 13502 100 ≡ 135020 }
{
    unit_margin(DIRECT, HOLDING)
}

pub fn direct_margin_of_50() -> u64
    ensures answered { result ≡ 67510 }
    ensures defined { unit_needs direct_of_10 100 13502 50 ≡ 67510 }
{
    let half = Holding {
        volume: 50,
        ..HOLDING
    };
    unit_margin(DIRECT, half)
}
