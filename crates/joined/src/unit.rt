// The kinds that the unit ships with, as one kind: direct is number 0, indirect 1 and share 3.
ghost use Rattle.std.specs.Prelude.{◌≡◌};
ghost use Rattle.joined.specs.UnitKinds.{unit_admits, unit_pays, unit_needs, Numbers};

use crate::pair::Joined;
use kinds::deal::{Deal, Holding};
use kinds::direct::Direct;
use kinds::indirect::Indirect;
use kinds::kind::ContractKind;
use kinds::share::Share;
use terms::contract::Contract;

pub type UnitKinds = Joined<Direct, Joined<Indirect, Share>>;

// The unit's kinds, and the theorem of their numbers.
pub fn unit_kinds() -> UnitKinds
    ensures { Numbers }
{
    Joined {
        first: Direct,
        second: Joined {
            first: Indirect,
            second: Share,
        },
    }
}

pub fn unit_admitted(contract: Contract) -> bool
    ensures { result ≡ unit_admits contract }
{
    unit_kinds().admitted(contract)
}

pub fn unit_payment(contract: Contract, deal: Deal) -> i64
    ensures { result ≡ unit_pays contract deal.side deal.opened deal.closed deal.volume }
{
    unit_kinds().payment(contract, deal)
}

pub fn unit_margin(contract: Contract, holding: Holding) -> u64
    ensures { result ≡ unit_needs contract holding.leverage holding.opened holding.volume }
{
    unit_kinds().margin(contract, holding)
}
