// What the shipped fill and closing rules answer.
use rules::candidate::Candidate;
use rules::closing::{ClosingRule, EarliestFirst, WorstFirst};
use rules::fill::{FillRule, FirstQuoteRule, TermsRule};
use terms::level::LevelKind;
use terms::order::OrderType;
use terms::side::Side;

// A level, and the prices dealt for it over a gap by the terms rule and by the first-quote rule: level 2,000, market 3,000.
const OVER_A_GAP: [(LevelKind, u32, u32); 8] = [
    (LevelKind::Entry(OrderType::BuyLimit), 2_000, 3_000),
    (LevelKind::Entry(OrderType::BuyStop), 3_000, 3_000),
    (LevelKind::Entry(OrderType::SellLimit), 2_000, 3_000),
    (LevelKind::Entry(OrderType::SellStop), 3_000, 3_000),
    (LevelKind::StopLoss(Side::Buy), 3_000, 3_000),
    (LevelKind::StopLoss(Side::Sell), 3_000, 3_000),
    (LevelKind::TakeProfit(Side::Buy), 2_000, 3_000),
    (LevelKind::TakeProfit(Side::Sell), 2_000, 3_000),
];

#[test]
fn fills(rt: HostRuntime) {
    for (kind, by_terms, by_first_quote) in OVER_A_GAP {
        let works = kind.works();
        assert_eq!(rt; TermsRule.dealt(works, 2_000, 3_000, true), by_terms);
        assert_eq!(rt;
            FirstQuoteRule.dealt(works, 2_000, 3_000, true),
            by_first_quote
        );
        assert_eq!(rt; TermsRule.dealt(works, 2_000, 3_000, false), 2_000);
        assert_eq!(rt; FirstQuoteRule.dealt(works, 2_000, 3_000, false), 2_000);
    }
}

// Results of tickets 4, 6 and 9, and the place that worst first names.
const RESULTS: [(i64, i64, i64, usize); 6] = [
    (0, 0, 0, 0),
    (5, -5, -5, 1),
    (5, -5, -6, 2),
    (-7, -5, -6, 0),
    (1, 2, 0, 2),
    (-9_000_000_000, 9_000_000_000, -9_000_000_000, 0),
];

#[test]
fn closings(rt: HostRuntime) {
    for (first, second, third, worst) in RESULTS {
        let candidates = [
            Candidate {
                ticket: 4,
                result: first,
                margin: 1,
            },
            Candidate {
                ticket: 6,
                result: second,
                margin: 3,
            },
            Candidate {
                ticket: 9,
                result: third,
                margin: 2,
            },
        ];
        assert_eq!(rt; WorstFirst.pick(&candidates), worst);
        assert_eq!(rt; EarliestFirst.pick(&candidates), 0);
    }
}
