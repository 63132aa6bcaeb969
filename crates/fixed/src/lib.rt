// A list in fixed memory: its items stand in the first places of an array.

#![tactic(auto)]

ghost use Rattle.std.specs.Prelude.{◌≡◌, ◌≤◌, ⊤, length};

use std::alloc::AllocError;

mod methods;

// At most N items; what a free place holds is of no account. An array with a count, as the unit has no heap, and no `ArrayVec`, which could not be copied.
pub struct FixedList<T, const N: usize> {
    places: [T; N],
    count: usize,
    ghost long: { length places ≡ N },
    ghost within: { count ≤ N },
}

// By hand: the check refuses a derived `Clone` of a generic struct with ghost fields.
impl<T: Copy, const N: usize> Clone for FixedList<T, N> {
    ghost is_clone = { λ x y. y ≡ x };

    ghost is_infallible = { λ _. ⊤ };

    fn clone(&self) -> Result<Self, AllocError> {
        Ok(*self)
    }
}

impl<T: Copy, const N: usize> Copy for FixedList<T, N> {}
