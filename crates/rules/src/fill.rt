// The price that a struck level is dealt at.
ghost use Rattle.std.specs.Prelude.{◌≡◌};
ghost use Rattle.rules.specs.Fill.{Deals, LevelOrMarket, terms_deals, first_quote_deals};
ghost use Rattle.std.proofs.Common.{rules};

use terms::level::WorksAs;

// What a rule means is a function: from order, level, market price and gap to the price that it deals.
pub trait FillRule {
    ghost deals: { Self → Deals };

    // The level's market price is told, and whether the quote came over a gap: a flag of its own, as a rule may deal either price with a gap or without.
    fn dealt(&self, works: WorksAs, level: u32, market: u32, gap: bool) -> u32
        ensures { result ≡ deals self.now works level market gap };

    // The law that each rule owes: it stands below the last method, which makes it one.
    ghost either: { (f : Self) → LevelOrMarket (deals f) };
}

// The published terms: over a gap a stop takes the market price.
#[derive(Clone, Copy)]
pub struct TermsRule;

impl FillRule for TermsRule {
    ghost deals = { λ _. terms_deals };

    ghost either = { Prim.search rules };

    fn dealt(&self, works: WorksAs, level: u32, market: u32, gap: bool) -> u32 {
        match works {
            WorksAs::Stop if gap => market,
            WorksAs::Stop | WorksAs::Limit => level,
        }
    }
}

// The first quote after a gap: any order takes its market price.
#[derive(Clone, Copy)]
pub struct FirstQuoteRule;

impl FillRule for FirstQuoteRule {
    ghost deals = { λ _. first_quote_deals };

    ghost either = { Prim.search rules };

    fn dealt(&self, _works: WorksAs, level: u32, market: u32, gap: bool) -> u32 {
        if gap { market } else { level }
    }
}
