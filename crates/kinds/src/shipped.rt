// The shipped kinds by what is their own: the sizes and percentages admitted, what a buy gains, and a margin's amount.
ghost use Rattle.std.specs.Prelude.{◌≡◌, ℕ, ◌≤◌, true};
ghost use Rattle.std.proofs.Common.{rules};
ghost use Rattle.kinds.specs.Laws.{Admits, Pays, Needs};
ghost use Rattle.kinds.specs.Payments.{Gains};
ghost use Rattle.kinds.specs.Ranges.{deal_ok, holding_ok};
ghost use Rattle.kinds.specs.Shipped.{Percentages, shipped_admits, shipped_pays, shipped_needs, Answers, FlatGains, BoundedGains, BoundedAmounts};
ghost use Rattle.kinds.specs.Lemmas.Admitted.{sized, sized_confined};
ghost use Rattle.kinds.specs.Lemmas.Shipped.{flat_paid, opposite_paid, bounded_paid, margined_amount};

use crate::amounts::signed;
use crate::deal::{Deal, Holding};
use crate::kind::ContractKind;
use terms::contract::Contract;

// Such a kind is a contract kind, by the impl below. It holds nothing, so its methods take no `self`. What two kinds answer alike stays with each: it is a rule of that kind.
pub trait Shipped {
    ghost LARGEST: { ℕ };

    ghost percentages: { Percentages };

    ghost gains: { Gains };

    ghost amounts: { Needs };

    // What the kind answers, by its definitions.
    ghost admits: { Admits };

    ghost pays: { Pays };

    ghost needs: { Needs };

    // The largest size that a contract may have.
    const LARGEST: u32;

    // Whether a contract may have that percentage.
    fn has_percentage(percentage: u8) -> bool
        ensures { result ≡ percentages percentage };

    // What a buy gains.
    fn gain(contract: Contract, deal: Deal) -> i64
        requires sized { contract.size ≤ LARGEST }
        requires inside { deal_ok deal.opened deal.closed deal.volume ≡ true }
        ensures { result ≡ gains contract deal.opened deal.closed deal.volume };

    // What margin a position needs.
    fn amount(contract: Contract, holding: Holding) -> u64
        requires sized { contract.size ≤ LARGEST }
        requires inside { holding_ok holding.leverage holding.opened holding.volume ≡ true }
        ensures { result ≡ amounts contract holding.leverage holding.opened holding.volume };

    // The laws, below the last method.
    ghost answers: { Answers LARGEST percentages gains amounts admits pays needs };

    ghost sizes_small: { LARGEST ≤ 1000000 };

    ghost percentages_small: { (p : ℕ) → percentages p ≡ true → p ≤ 100 };

    ghost gains_flat: { FlatGains gains };

    ghost gains_bounded: { BoundedGains LARGEST gains };

    ghost amounts_bounded: { BoundedAmounts LARGEST percentages amounts };
}

impl<S: Shipped> ContractKind for S {
    ghost admits = { λ _. shipped_admits S.LARGEST S.percentages };

    ghost pays = { λ _. shipped_pays S.LARGEST S.percentages S.gains };

    ghost needs = { λ _. shipped_needs S.LARGEST S.percentages S.amounts };

    ghost confined = { λ _ c h. sized_confined c S.LARGEST (S.percentages c.percentage) S.sizes_small (S.percentages_small c.percentage) h };

    ghost flat = { λ _. flat_paid (shipped_admits S.LARGEST S.percentages) S.gains S.gains_flat };

    ghost opposite = { λ _. opposite_paid (shipped_admits S.LARGEST S.percentages) S.gains };

    ghost bounded = { λ _. bounded_paid (shipped_admits S.LARGEST S.percentages) S.gains (λ c o k v h ho hk. S.gains_bounded c o k v ho hk (sized c S.LARGEST (S.percentages c.percentage) h).0.1) };

    ghost margined = { λ _. margined_amount (shipped_admits S.LARGEST S.percentages) S.amounts (λ c l o v h.
        let s = sized c S.LARGEST (S.percentages c.percentage) h in S.amounts_bounded c l o v s.0 s.1) };

    ghost unpaid = { Prim.search rules };

    ghost unmargined = { Prim.search rules };

    fn admitted(&self, contract: Contract) -> bool {
        contract.number == 0
            && (1..=S::LARGEST).contains(&contract.size)
            && S::has_percentage(contract.percentage)
    }

    fn payment(&self, contract: Contract, deal: Deal) -> i64 {
        if self.admitted(contract) && deal.is_inside() {
            signed(deal.side, S::gain(contract, deal))
        } else {
            0
        }
    }

    fn margin(&self, contract: Contract, holding: Holding) -> u64 {
        if self.admitted(contract) && holding.is_inside() {
            S::amount(contract, holding)
        } else {
            0
        }
    }
}
