// The four types of a pending order.
ghost use Rattle.std.specs.Prelude.{◌≡◌};
ghost use Rattle.terms.specs.Sides.{side_of};

use crate::side::Side;
use std::fmt;

#[derive(Clone, Copy)]
pub enum OrderType {
    BuyLimit,
    BuyStop,
    SellLimit,
    SellStop,
}

impl OrderType {
    // The side of the position that a fill opens.
    pub fn side(self) -> Side
        ensures { result ≡ side_of self }
    {
        match self {
            OrderType::BuyLimit | OrderType::BuyStop => Side::Buy,
            OrderType::SellLimit | OrderType::SellStop => Side::Sell,
        }
    }
}

impl fmt::Display for OrderType {
    fn fmt<W: fmt::Write>(&self, f: &mut fmt::Formatter<W>) -> fmt::Result {
        f.pad(match self {
            OrderType::BuyLimit => "buy limit",
            OrderType::BuyStop => "buy stop",
            OrderType::SellLimit => "sell limit",
            OrderType::SellStop => "sell stop",
        })
    }
}
