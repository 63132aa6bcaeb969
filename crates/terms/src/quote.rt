// Prices as tables keep them, and a quote, whose prices are fair by its type.
ghost use Rattle.std.specs.Prelude.{◌≤◌};
ghost use Rattle.limits.specs.Bounds.{Price};

mod methods;

#[derive(Clone, Copy)]
pub struct Prices {
    pub bid: u32,
    pub ask: u32,
}

// Made from prices by a check, so that whoever values by it has nothing to ask of them.
#[derive(Clone, Copy)]
pub struct Quote {
    prices: Prices,
    ghost bid_priced: { Price prices.bid },
    ghost ask_priced: { Price prices.ask },
    ghost ordered: { prices.bid ≤ prices.ask },
}
