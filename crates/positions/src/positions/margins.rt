// The margin of an account's positions, instrument by instrument.
ghost use Rattle.std.specs.Prelude.{◌≡◌, ◌*◌, ◌≤◌};
ghost use Rattle.market.specs.Instruments.{hedge_share};
ghost use Rattle.market.specs.Markets.{instrument};
ghost use Rattle.positions.specs.Held.{held};
ghost use Rattle.positions.specs.Margins.{hedged, side_margin, instrument_margin, account_margin};

use crate::positions::Positions;
use market::market::Market;
use terms::side::Side;

// The larger of the two sums, and the hedge share of the smaller in percent, rounded down.
fn hedged(share: u8, buys: u64, sells: u64) -> u64
    requires buys { buys ≤ 32000000000000 }
    requires sells { sells ≤ 32000000000000 }
    ensures value { result ≡ hedged share buys sells }
    ensures bound { result ≤ 120000000000000 }
{
    buys.max(sells) + buys.min(sells) * u64::from(share) / 100
}

impl Positions {
    // The margins of an instrument's positions of one side, together.
    fn side_margin(&self, instrument: u8, side: Side) -> u64
        ensures value { result ≡ side_margin instrument side (held self.now) }
        ensures bound { result ≤ 32000000000000 }
    {
        let mut sum = 0;
        for position in self.held() {
            if position.is_on(instrument, side) {
                sum += position.margin;
            }
        }
        sum
    }

    // The margin that one instrument's positions need.
    fn instrument_margin(&self, market: &Market, number: u8) -> u64
        ensures value { result ≡ instrument_margin (hedge_share (instrument number market.now)) number (held self.now) }
        ensures bound { result ≤ 120000000000000 }
    {
        let share = market.instrument(number).hedge_share();
        let buys = self.side_margin(number, Side::Buy);
        let sells = self.side_margin(number, Side::Sell);
        hedged(share, buys, sells)
    }

    // The margin that the positions need together.
    #[tactic(auto, using(crate::proofs::Totals::over_more))]
    pub fn margin(&self, market: &Market) -> u64
        ensures value { result ≡ account_margin market.now (held self.now) }
        ensures bound { result ≤ 1000000000000000 }
    {
        let mut sum = 0;
        for number in 1..=8u8 {
            sum += self.instrument_margin(market, number);
        }
        sum
    }
}
