// What a contract kind answers, and the laws that its answers keep.
ghost use Rattle.std.specs.Prelude.{◌≡◌};
ghost use Rattle.kinds.specs.Laws.{Admits, Pays, Needs, Confined, Flat, Opposite, Bounded, Margined, Unpaid, Unmargined};

use crate::deal::{Deal, Holding};
use terms::contract::Contract;

// The members say what a kind means: each answer is a function of what is asked.
pub trait ContractKind {
    ghost admits: { Self → Admits };

    ghost pays: { Self → Pays };

    ghost needs: { Self → Needs };

    // Whether the kind admits a contract.
    fn admitted(&self, contract: Contract) -> bool
        ensures { result ≡ admits self.now contract };

    // What a closing pays.
    fn payment(&self, contract: Contract, deal: Deal) -> i64
        ensures { result ≡ pays self.now contract deal.side deal.opened deal.closed deal.volume };

    // What margin a position needs.
    fn margin(&self, contract: Contract, holding: Holding) -> u64
        ensures { result ≡ needs self.now contract holding.leverage holding.opened holding.volume };

    // The laws that each kind owes. A ghost member is a law because it stands below the last method.
    ghost confined: { (k : Self) → Confined (admits k) };

    ghost flat: { (k : Self) → Flat (admits k) (pays k) };

    ghost opposite: { (k : Self) → Opposite (admits k) (pays k) };

    ghost bounded: { (k : Self) → Bounded (admits k) (pays k) };

    ghost margined: { (k : Self) → Margined (admits k) (needs k) };

    ghost unpaid: { (k : Self) → Unpaid (admits k) (pays k) };

    ghost unmargined: { (k : Self) → Unmargined (admits k) (needs k) };
}
