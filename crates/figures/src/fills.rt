// The price dealt where the rule is told that the quote came over a gap. Each figure is a function of its own: a theorem with its numbers.
ghost use Rattle.std.specs.Prelude.{◌≡◌, true};
ghost use Rattle.rules.specs.Fill.{terms_deals, first_quote_deals};
ghost use Rattle.terms.specs.Levels.{works_as, market_price};
ghost use Rattle.figures.specs.Cases.{buy_stop, buy_limit, risen, fallen};

use rules::fill::{FillRule, FirstQuoteRule, TermsRule};
use terms::level::LevelKind;
use terms::order::OrderType;
use terms::quote::Prices;

const BUY_STOP: LevelKind = LevelKind::Entry(OrderType::BuyStop);

const BUY_LIMIT: LevelKind = LevelKind::Entry(OrderType::BuyLimit);

const RISEN: Prices = Prices {
    bid: 13_560,
    ask: 13_562,
};

const FALLEN: Prices = Prices {
    bid: 13_400,
    ask: 13_402,
};

pub fn buy_stop_over_a_gap() -> u32
    ensures answered { result ≡ 13562 }
    ensures defined { terms_deals (works_as buy_stop) 13540 (market_price buy_stop risen) true ≡ 13562 }
{
    TermsRule.dealt(BUY_STOP.works(), 13_540, BUY_STOP.market(RISEN), true)
}

pub fn buy_limit_over_a_gap() -> u32
    ensures answered { result ≡ 13450 }
    ensures defined { terms_deals (works_as buy_limit) 13450 (market_price buy_limit fallen) true ≡ 13450 }
{
    TermsRule.dealt(BUY_LIMIT.works(), 13_450, BUY_LIMIT.market(FALLEN), true)
}

pub fn buy_limit_at_the_first_quote() -> u32
    ensures answered { result ≡ 13402 }
    ensures defined { first_quote_deals (works_as buy_limit) 13450 (market_price buy_limit fallen) true ≡ 13402 }
{
    FirstQuoteRule.dealt(BUY_LIMIT.works(), 13_450, BUY_LIMIT.market(FALLEN), true)
}
