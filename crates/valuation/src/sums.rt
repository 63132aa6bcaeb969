// Equity and free margin from an account's positions.
ghost use Rattle.std.specs.Prelude.{◌≡◌, ◌≤◌, pos, ◌+ℤ◌, ◌-ℤ◌, unsigned_abs};
ghost use Rattle.account.specs.Accounts.{model};
ghost use Rattle.positions.specs.Held.{held};
ghost use Rattle.positions.specs.Positions.{floating};

use account::account::Account;
use positions::positions::Positions;

// Balance and floating results.
pub fn equity_with(account: &Account, positions: &Positions) -> i64
    ensures value { result ≡ (model account.now).balance +ℤ floating (held positions.now) }
    ensures size { unsigned_abs result ≤ 13000000000000000 }
{
    account.balance() + positions.floating()
}

// Equity less margin. The cast is proved to keep the margin: `try_from` and `unwrap` would be longer and say no more.
pub fn free_of(equity: i64, margin: u64) -> i64
    requires equity { unsigned_abs equity ≤ 13000000000000000 }
    requires margin { margin ≤ 1000000000000000 }
    ensures { result ≡ equity -ℤ pos margin }
{
    equity - margin as i64
}
