// How a list is read and changed.
ghost use Rattle.std.specs.Prelude.{◌≡◌, ◌+◌, ◌<◌, ◌≤◌, Bool, filter, [], ◌∷◌, ◌++◌, length, slice_set};
ghost use Rattle.std.specs.Fn.{CalledAt};
ghost use Rattle.std.specs.List.Retain.{IsFiltered};
ghost use Rattle.fixed.specs.Items.{TestsBy, items};

use crate::FixedList;

impl<T: Copy, const N: usize> FixedList<T, N> {
    // A list of no items, whose free places hold `blank`.
    pub fn new(blank: T) -> Self
        ensures { items result ≡ [] }
    {
        FixedList {
            places: [blank; N],
            count: 0,
        }
    }

    // A list of no items over an array as it is, which takes less time than `new` where the array is a constant.
    pub fn new_in(places: [T; N]) -> Self
        ensures { items result ≡ [] }
    {
        let count = 0;
        FixedList { places, count }
    }

    pub fn len(&self) -> usize
        ensures value { result ≡ length (items self.now) }
        ensures few { result ≤ N }
    {
        self.as_slice().len()
    }

    // The items, in order, with the bound that a slice's type does not have.
    pub fn as_slice(&self) -> &[T]
        ensures value { result.now ≡ items self.now }
        ensures few { length result.now ≤ N }
    {
        &self.places[..self.count]
    }

    // Puts an item behind the others. The count is kept in a local, as it would else be read again after the write.
    pub fn push(&mut self, item: T)
        requires { length (items self.old) < N }
        ensures { items self.new ≡ items self.old ++ item ∷ [] }
    {
        let count = self.count;
        self.places[count] = item;
        self.count = count + 1;
    }

    // Puts an item in the place of another.
    #[tactic(auto, using(crate::proofs::Fronts::set_in_front))]
    pub fn set(&mut self, place: usize, item: T)
        requires { place < length (items self.old) }
        ensures { items self.new ≡ slice_set (items self.old) place item }
    {
        self.places[place] = item;
    }

    // Takes all items out.
    pub fn clear(&mut self)
        ensures { items self.new ≡ [] }
    {
        self.count = 0;
    }

    // Keeps the items at which `keep` says so, in their order. They are read from a copy, so that no place is counted by hand.
    pub fn retain<F: FnMut(&T) -> bool>(&mut self, mut keep: F)
        requires { F.IsAlwaysCallable keep }
        ensures filtered { IsFiltered (CalledAt F.FnMut) keep (items self.old) (items self.new) }
        ensures tested { (test : T → Bool) → TestsBy (CalledAt F.FnMut) keep test → items self.new ≡ filter test (items self.old) }
    {
        let all = *self;
        self.clear();
        for item in all.as_slice() {
            if keep(item) {
                self.push(*item);
            }
        }
    }
}
