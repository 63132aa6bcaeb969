// An account at present prices.
ghost use Rattle.std.specs.Prelude.{◌≡◌, ◌≤◌, unsigned_abs};
ghost use Rattle.account.specs.Accounts.{model};
ghost use Rattle.positions.specs.Held.{held};
ghost use Rattle.positions.specs.Positions.{Heaviest};
ghost use Rattle.valuation.specs.Valuation.{open_positions, equity, margin, free_margin};

use crate::sums::{equity_with, free_of};
use account::account::Account;
use kinds::kind::ContractKind;
use market::market::Market;
use positions::positions::Positions;

// The contract kinds and the market that accounts are valued by. Clauses name both: a model would hold what the kinds answer, and its value can hold no function.
#[derive_where(Clone, Copy)]
pub struct Valuation<'a, K> {
    pub kinds: &'a K,
    pub market: &'a Market,
}

impl<'a, K> Valuation<'a, K> {
    pub fn new(kinds: &'a K, market: &'a Market) -> Valuation<'a, K>
        ensures kinds { result.kinds.now ≡ kinds.now }
        ensures market { result.market.now ≡ market.now }
    {
        Valuation { kinds, market }
    }
}

impl<K: ContractKind> Valuation<'_, K> {
    // An account's open positions at present prices, by rising ticket.
    pub fn open_positions(self, account: &Account) -> Positions
        ensures { held result ≡ open_positions (K.pays self.entry.kinds.now) (K.needs self.entry.kinds.now) self.entry.market.now (model account.now) }
    {
        self.gather(account.leverage(), account.tickets())
    }

    // The balance and all floating results.
    pub fn equity(self, account: &Account) -> i64
        ensures value { result ≡ equity (K.pays self.entry.kinds.now) (K.needs self.entry.kinds.now) self.entry.market.now (model account.now) }
        ensures size { unsigned_abs result ≤ 13000000000000000 }
    {
        equity_with(account, &self.open_positions(account))
    }

    // What all positions need.
    pub fn margin(self, account: &Account) -> u64
        ensures value { result ≡ margin (K.pays self.entry.kinds.now) (K.needs self.entry.kinds.now) self.entry.market.now (model account.now) }
        ensures size { result ≤ 1000000000000000 }
    {
        self.open_positions(account).margin(self.market)
    }

    // Equity less margin.
    pub fn free_margin(self, account: &Account) -> i64
        ensures { result ≡ free_margin (K.pays self.entry.kinds.now) (K.needs self.entry.kinds.now) self.entry.market.now (model account.now) }
    {
        let positions = self.open_positions(account);
        free_of(
            equity_with(account, &positions),
            positions.margin(self.market),
        )
    }

    // The ticket of a position of largest margin.
    pub fn heaviest(self, account: &Account) -> Option<u16>
        ensures { Heaviest (open_positions (K.pays self.entry.kinds.now) (K.needs self.entry.kinds.now) self.entry.market.now (model account.now)) result }
    {
        self.open_positions(account).heaviest()
    }
}
