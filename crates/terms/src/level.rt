// A level that a quote can strike: where a pending order enters, a stop loss or a take profit.
ghost use Rattle.std.specs.Prelude.{◌≡◌};
ghost use Rattle.terms.specs.Levels.{works_as, low, at_bid, market_price};

use crate::order::OrderType;
use crate::quote::Prices;
use crate::side::Side;
use std::fmt;

// The side of a stop loss or a take profit is that of its position.
#[derive(Clone, Copy)]
pub enum LevelKind {
    Entry(OrderType),
    StopLoss(Side),
    TakeProfit(Side),
}

#[derive(Clone, Copy)]
pub enum WorksAs {
    Stop,
    Limit,
}

impl LevelKind {
    // How a fill rule is told of the level.
    pub fn works(self) -> WorksAs
        ensures { result ≡ works_as self }
    {
        match self {
            LevelKind::Entry(OrderType::BuyStop | OrderType::SellStop) => WorksAs::Stop,
            LevelKind::Entry(OrderType::BuyLimit | OrderType::SellLimit) => WorksAs::Limit,
            LevelKind::StopLoss(_) => WorksAs::Stop,
            LevelKind::TakeProfit(_) => WorksAs::Limit,
        }
    }

    // A low level is struck from above, a high one from below.
    pub fn is_low(self) -> bool
        ensures { result ≡ low self }
    {
        matches!(
            self,
            LevelKind::Entry(OrderType::BuyLimit | OrderType::SellStop)
                | LevelKind::StopLoss(Side::Buy)
                | LevelKind::TakeProfit(Side::Sell)
        )
    }

    // Whether the bid is the level's market price, and not the ask.
    fn looks_at_bid(self) -> bool
        ensures { result ≡ at_bid self }
    {
        matches!(
            self,
            LevelKind::Entry(OrderType::SellLimit | OrderType::SellStop)
                | LevelKind::StopLoss(Side::Buy)
                | LevelKind::TakeProfit(Side::Buy)
        )
    }

    // The price that the level is compared with.
    pub fn market(self, prices: Prices) -> u32
        ensures { result ≡ market_price self prices }
    {
        if self.looks_at_bid() {
            prices.bid
        } else {
            prices.ask
        }
    }
}

impl fmt::Display for LevelKind {
    fn fmt<W: fmt::Write>(&self, f: &mut fmt::Formatter<W>) -> fmt::Result {
        match self {
            LevelKind::Entry(order) => order.fmt(f),
            LevelKind::StopLoss(_) => f.pad("stop loss"),
            LevelKind::TakeProfit(_) => f.pad("take profit"),
        }
    }
}
