// The positions among tickets, at present prices.
ghost use Rattle.std.specs.Prelude.{◌≡◌, ℕ, ◌≤◌, true, length};
ghost use Rattle.tickets.specs.Lists.{sound};
ghost use Rattle.positions.specs.Held.{held};
ghost use Rattle.valuation.specs.Valuation.{positions_of};

use crate::worth::Valuation;
use kinds::kind::ContractKind;
use positions::positions::Positions;
use tickets::ticket::Ticket;

impl<K: ContractKind> Valuation<'_, K> {
    pub(crate) fn gather(self, leverage: u32, tickets: &[Ticket]) -> Positions
        requires few { length tickets.now ≤ 32 }
        requires sound { (used : ℕ) × (sound used tickets.now ≡ true) }
        ensures { held result ≡ positions_of (K.pays self.entry.kinds.now) (K.needs self.entry.kinds.now) self.entry.market.now leverage tickets.now }
    {
        let mut positions = Positions::new();
        for ticket in tickets {
            if let Some(position) = self.position(leverage, *ticket) {
                positions.push(position);
            }
        }
        positions
    }
}
