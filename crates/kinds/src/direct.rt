// A contract quoted in the currency of the accounts.
ghost use Rattle.std.specs.Prelude.{◌*◌, ◌==◌, refl};
ghost use Rattle.std.proofs.Common.{arith};
ghost use Rattle.std.proofs.lemmas.Bool.{eqb-true};
ghost use Rattle.kinds.specs.Amounts.{rounded_up};
ghost use Rattle.kinds.specs.Direct.{direct_admits, direct_pays, direct_needs};
ghost use Rattle.kinds.specs.Payments.{points};
ghost use Rattle.kinds.specs.Lemmas.Bounds.{points_most, worth_amount};
ghost use Rattle.kinds.specs.Lemmas.Sizes.{gained_flat};

use crate::amounts::{point_gain, up, worth};
use crate::deal::{Deal, Holding};
use crate::shipped::Shipped;
use terms::contract::Contract;

#[derive(Clone, Copy)]
pub struct Direct;

impl Shipped for Direct {
    ghost LARGEST = { 100 };

    ghost percentages = { λ p. p == 0 };

    ghost gains = { points };

    ghost amounts = { λ c l o v. rounded_up (v * o * c.size) l };

    ghost admits = { direct_admits };

    ghost pays = { direct_pays };

    ghost needs = { direct_needs };

    ghost answers = { (refl, refl, refl) };

    ghost sizes_small = { omega arith };

    ghost percentages_small = { λ p e. omega (arith, eqb-true p 0 e) };

    ghost gains_flat = { λ c o v. gained_flat o (v * c.size) };

    ghost gains_bounded = { λ c o k v. points_most o k v c.size };

    ghost amounts_bounded = { λ c l o v s _ hl ho hv. worth_amount l o v c.size hl ho hv s };

    const LARGEST: u32 = 100;

    fn has_percentage(percentage: u8) -> bool {
        percentage == 0
    }

    fn gain(contract: Contract, deal: Deal) -> i64 {
        point_gain(deal, contract.size)
    }

    fn amount(contract: Contract, holding: Holding) -> u64 {
        up(worth(holding, contract.size), holding.leverage)
    }
}
