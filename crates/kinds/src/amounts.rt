// The amounts that kinds share: steps of their arithmetic. Each asks for its own bounds, which a type for all would have to be the strictest of.
ghost use Rattle.std.specs.Prelude.{◌≡◌, ◌*◌, ◌^◌, ◌<◌, ◌≤◌, pos, ◌-ℤ◌, unsigned_abs};
ghost use Rattle.kinds.specs.Amounts.{gained, by_side, rounded_up};

use crate::deal::{Deal, Holding};
use terms::side::Side;

fn price_change(deal: Deal) -> i64
    ensures { result ≡ pos deal.closed -ℤ pos deal.opened }
{
    i64::from(deal.closed) - i64::from(deal.opened)
}

// What a buy gains where each point is worth volume × size.
pub fn point_gain(deal: Deal, size: u32) -> i64
    requires opened_priced { deal.opened ≤ 1000000 }
    requires closed_priced { deal.closed ≤ 1000000 }
    requires volume_small { deal.volume ≤ 10000 }
    requires size_small { size ≤ 100000 }
    ensures { result ≡ gained deal.opened deal.closed (deal.volume * size) }
{
    price_change(deal) * i64::from(units(deal.volume, size))
}

// What is paid for a side, from what a buy gains.
pub fn signed(side: Side, buy: i64) -> i64
    requires { unsigned_abs buy < 2 ^ 63 }
    ensures { result ≡ by_side side buy }
{
    match side {
        Side::Buy => buy,
        Side::Sell => -buy,
    }
}

// volume × size
pub fn units(volume: u32, size: u32) -> u32
    requires volume_small { volume ≤ 10000 }
    requires size_small { size ≤ 100000 }
    ensures { result ≡ volume * size }
{
    volume * size
}

// volume × open × size
pub fn worth(holding: Holding, size: u32) -> u64
    requires volume_small { holding.volume ≤ 10000 }
    requires opened_priced { holding.opened ≤ 1000000 }
    requires size_small { size ≤ 100 }
    ensures value { result ≡ holding.volume * holding.opened * size }
    ensures small { result ≤ 1000000000000 }
{
    u64::from(holding.volume) * u64::from(holding.opened) * u64::from(size)
}

// `amount / by`, rounded up.
pub fn up(amount: u64, by: u32) -> u64
    requires { 0 < by }
    ensures { result ≡ rounded_up amount by }
{
    amount.div_ceil(u64::from(by))
}
