// Two kinds as one: even numbers are the first's, odd ones the second's.
ghost use Rattle.std.specs.Prelude.{◌≡◌};
ghost use Rattle.joined.specs.Routes.{part_of, joined_admits, joined_pays, joined_needs};
ghost use Rattle.joined.specs.Lemmas.Routed.{joined_flat, joined_opposite, joined_bounded, joined_margined, joined_unpaid, joined_unmargined};
ghost use Rattle.std.proofs.Common.{rules};

use kinds::deal::{Deal, Holding};
use kinds::kind::ContractKind;
use terms::contract::Contract;

#[derive(Clone, Copy)]
pub struct Joined<A, B> {
    pub first: A,
    pub second: B,
}

// A contract as the kind that it belongs to reads it.
enum Part {
    First(Contract),
    Second(Contract),
}

// Which kind a contract belongs to, by its number, which that kind reads halved.
fn part_of(contract: Contract) -> Part
    ensures { result ≡ part_of contract }
{
    let read = Contract {
        number: contract.number / 2,
        ..contract
    };
    if contract.number % 2 == 0 {
        Part::First(read)
    } else {
        Part::Second(read)
    }
}

impl<A: ContractKind, B: ContractKind> ContractKind for Joined<A, B> {
    ghost admits = { λ k. joined_admits (A.admits k.first) (B.admits k.second) };

    ghost pays = { λ k. joined_pays (A.pays k.first) (B.pays k.second) };

    ghost needs = { λ k. joined_needs (A.needs k.first) (B.needs k.second) };

    ghost confined = { Prim.search rules };

    ghost flat = { λ k. joined_flat _ _ (A.pays k.first) (B.pays k.second) (A.flat k.first) (B.flat k.second) };

    ghost opposite = { λ k. joined_opposite _ _ (A.pays k.first) (B.pays k.second) (A.opposite k.first) (B.opposite k.second) };

    ghost bounded = { λ k. joined_bounded _ _ (A.pays k.first) (B.pays k.second) (A.bounded k.first) (B.bounded k.second) };

    ghost margined = { λ k. joined_margined _ _ (A.needs k.first) (B.needs k.second) (A.margined k.first) (B.margined k.second) };

    ghost unpaid = { λ k. joined_unpaid _ _ (A.pays k.first) (B.pays k.second) (A.unpaid k.first) (B.unpaid k.second) };

    ghost unmargined = { λ k. joined_unmargined _ _ (A.needs k.first) (B.needs k.second) (A.unmargined k.first) (B.unmargined k.second) };

    fn admitted(&self, contract: Contract) -> bool {
        match part_of(contract) {
            Part::First(contract) => self.first.admitted(contract),
            Part::Second(contract) => self.second.admitted(contract),
        }
    }

    fn payment(&self, contract: Contract, deal: Deal) -> i64 {
        match part_of(contract) {
            Part::First(contract) => self.first.payment(contract, deal),
            Part::Second(contract) => self.second.payment(contract, deal),
        }
    }

    fn margin(&self, contract: Contract, holding: Holding) -> u64 {
        match part_of(contract) {
            Part::First(contract) => self.first.margin(contract, holding),
            Part::Second(contract) => self.second.margin(contract, holding),
        }
    }
}
