// The search for the first least element of a slice, for every element type with an order.
ghost use Rattle.std.specs.Prelude.{◌≡◌, ◌<◌, ◌≤◌, length};
ghost use Rattle.std.specs.Ordering.{is_lt};
ghost use Rattle.rules.specs.Least.{FirstLeast};

pub fn first_least<T: Ord>(xs: &[T]) -> usize
    requires { 0 < length xs.now }
    ensures within { result < length xs.now }
    ensures least { FirstLeast (λ x y. is_lt (T.cmp x y)) xs.now (length xs.now) result }
{
    let least = xs.iter().min().unwrap();
    xs.iter().position(|x| x == least).unwrap()
}
