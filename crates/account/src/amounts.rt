// Sums of amounts that are far from the ends of 64 bits.
ghost use Rattle.std.specs.Prelude.{◌≡◌, ◌+◌, ◌≤◌, pos, ◌+ℤ◌, ◌-ℤ◌, ◌≤ℤ◌, unsigned_abs};

pub fn plus(balance: i64, amount: i64) -> i64
    requires { unsigned_abs balance + unsigned_abs amount ≤ 1000000000000000000 }
    ensures value { result ≡ balance +ℤ amount }
    ensures size { unsigned_abs result ≤ unsigned_abs balance + unsigned_abs amount }
{
    balance + amount
}

// What is left of a balance after a payment that it covers. The cast is proved to keep the amount: `try_from` and `unwrap` would be longer and say no more.
pub fn minus(balance: i64, amount: u64) -> i64
    requires covered { pos amount ≤ℤ balance }
    ensures value { result ≡ balance -ℤ pos amount }
    ensures size { unsigned_abs result ≤ unsigned_abs balance }
{
    balance - amount as i64
}
