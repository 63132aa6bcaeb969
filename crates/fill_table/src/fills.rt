// The price dealt at a struck level, by each of the shipped fill rules.
use rules::fill::{FillRule, FirstQuoteRule, TermsRule};
use std::fmt;
use terms::level::LevelKind;
use terms::order::OrderType;
use terms::quote::Prices;
use terms::side::Side;

// What is struck, its level, and the quote that strikes it.
const STRUCK: [(LevelKind, u32, Prices); 4] = [
    (
        LevelKind::Entry(OrderType::BuyStop),
        13_540,
        Prices {
            bid: 13_560,
            ask: 13_562,
        },
    ),
    (
        LevelKind::Entry(OrderType::BuyLimit),
        13_450,
        Prices {
            bid: 13_400,
            ask: 13_402,
        },
    ),
    (
        LevelKind::StopLoss(Side::Buy),
        13_420,
        Prices {
            bid: 13_400,
            ask: 13_402,
        },
    ),
    (
        LevelKind::TakeProfit(Side::Buy),
        13_550,
        Prices {
            bid: 13_560,
            ask: 13_562,
        },
    ),
];

pub struct FillTable;

impl fmt::Display for FillTable {
    fn fmt<W: fmt::Write>(&self, f: &mut fmt::Formatter<W>) -> fmt::Result {
        writeln!(f, "Price dealt    level  market  gap  terms  first quote")?;
        for (kind, level, prices) in STRUCK {
            let works = kind.works();
            let market = kind.market(prices);
            for gap in [false, true] {
                writeln!(
                    f,
                    "  {:<12} {:>5}  {:>6}  {:<3}  {:>5}  {:>11}",
                    kind,
                    level,
                    market,
                    if gap { "yes" } else { "no" },
                    TermsRule.dealt(works, level, market, gap),
                    FirstQuoteRule.dealt(works, level, market, gap)
                )?;
            }
        }
        Ok(())
    }
}
