// An account, whose amounts are bounded by its type.
ghost use Rattle.std.specs.Prelude.{◌≤◌};
ghost use Rattle.limits.specs.Bounds.{Leverage};
ghost use Rattle.tickets.specs.Tables.{live};
ghost use Rattle.account.specs.Measure.{Measured};

use tickets::table::Table;

mod changes;
mod questions;

// Leverage and stop-out level are as the account was opened; `paid_in` is all that was ever paid in.
#[derive(Clone, Copy)]
pub struct Account {
    leverage: u32,
    stop_out: u8,
    balance: i64,
    paid_in: u64,
    nights: u16,
    table: Table,
    ghost leverage_inside: { Leverage leverage },
    ghost level_inside: { stop_out ≤ 100 },
    ghost payments_inside: { paid_in ≤ 1000000000000000 },
    ghost nights_inside: { nights ≤ 10000 },
    ghost measured: { Measured balance (live table) paid_in table.used nights },
}
