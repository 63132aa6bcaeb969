// A contract on a share: its margin is a percentage of what it is worth, whatever the leverage.
ghost use Rattle.std.specs.Prelude.{◌*◌, refl};
ghost use Rattle.std.proofs.Common.{arith};
ghost use Rattle.limits.specs.Bounds.{between};
ghost use Rattle.limits.proofs.Within.{between_says};
ghost use Rattle.kinds.specs.Amounts.{rounded_up};
ghost use Rattle.kinds.specs.Share.{share_admits, share_pays, share_needs};
ghost use Rattle.kinds.specs.Payments.{points};
ghost use Rattle.kinds.specs.Lemmas.Bounds.{points_most, share_amount};
ghost use Rattle.kinds.specs.Lemmas.Sizes.{gained_flat};

use crate::amounts::{point_gain, up, worth};
use crate::deal::{Deal, Holding};
use crate::shipped::Shipped;
use terms::contract::Contract;

#[derive(Clone, Copy)]
pub struct Share;

impl Shipped for Share {
    ghost LARGEST = { 100 };

    ghost percentages = { between 1 100 };

    ghost gains = { points };

    ghost amounts = { λ c l o v. rounded_up (v * o * c.size * c.percentage) 100 };

    ghost admits = { share_admits };

    ghost pays = { share_pays };

    ghost needs = { share_needs };

    ghost answers = { (refl, refl, refl) };

    ghost sizes_small = { omega arith };

    ghost percentages_small = { λ p e. (between_says 1 100 p e).1 };

    ghost gains_flat = { λ c o v. gained_flat o (v * c.size) };

    ghost gains_bounded = { λ c o k v. points_most o k v c.size };

    ghost amounts_bounded = { λ c _ o v s p _ ho hv. share_amount o v c.size c.percentage ho hv s (between_says 1 100 c.percentage p) };

    const LARGEST: u32 = 100;

    fn has_percentage(percentage: u8) -> bool {
        (1..=100).contains(&percentage)
    }

    fn gain(contract: Contract, deal: Deal) -> i64 {
        point_gain(deal, contract.size)
    }

    fn amount(contract: Contract, holding: Holding) -> u64 {
        let whole = worth(holding, contract.size);
        up(whole * u64::from(contract.percentage), 100)
    }
}
