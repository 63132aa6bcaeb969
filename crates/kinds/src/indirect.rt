// A contract quoted in another currency: a gain is turned into the accounts' currency at the closing price.
ghost use Rattle.std.specs.Prelude.{◌*◌, ◌==◌, refl};
ghost use Rattle.std.proofs.Common.{arith};
ghost use Rattle.std.proofs.lemmas.Bool.{eqb-true};
ghost use Rattle.kinds.specs.Amounts.{rounded_up};
ghost use Rattle.kinds.specs.Indirect.{converted, indirect_admits, indirect_pays, indirect_needs};
ghost use Rattle.kinds.specs.Lemmas.Bounds.{converted_most, units_amount};
ghost use Rattle.kinds.specs.Lemmas.Sizes.{converted_flat};

use crate::amounts::{point_gain, units, up};
use crate::deal::{Deal, Holding};
use crate::shipped::Shipped;
use terms::contract::Contract;

#[derive(Clone, Copy)]
pub struct Indirect;

impl Shipped for Indirect {
    ghost LARGEST = { 100000 };

    ghost percentages = { λ p. p == 0 };

    ghost gains = { converted };

    ghost amounts = { λ c l o v. rounded_up (v * c.size) l };

    ghost admits = { indirect_admits };

    ghost pays = { indirect_pays };

    ghost needs = { indirect_needs };

    ghost answers = { (refl, refl, refl) };

    ghost sizes_small = { omega arith };

    ghost percentages_small = { λ p e. omega (arith, eqb-true p 0 e) };

    ghost gains_flat = { λ c o v. converted_flat o (v * c.size) };

    ghost gains_bounded = { λ c o k v. converted_most o k v c.size };

    ghost amounts_bounded = { λ c l o v s _ hl _ hv. units_amount l v c.size hl hv s };

    const LARGEST: u32 = 100_000;

    fn has_percentage(percentage: u8) -> bool {
        percentage == 0
    }

    fn gain(contract: Contract, deal: Deal) -> i64 {
        point_gain(deal, contract.size) / i64::from(deal.closed)
    }

    fn amount(contract: Contract, holding: Holding) -> u64 {
        let foreign = units(holding.volume, contract.size);
        up(u64::from(foreign), holding.leverage)
    }
}
