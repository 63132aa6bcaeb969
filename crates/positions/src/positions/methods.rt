// What is asked of an account's open positions.
ghost use Rattle.std.specs.Prelude.{◌≡◌, ◌<◌, ◌≤◌, [], ◌∷◌, ◌++◌, length};
ghost use Rattle.rules.specs.Closing.{Told};
ghost use Rattle.fixed.specs.Items.{items};
ghost use Rattle.positions.specs.Held.{held};
ghost use Rattle.positions.specs.Positions.{candidates, floating, Above, Heaviest};
ghost use Rattle.positions.specs.Sizes.{Within, SizedOne, Sized};

use crate::position::OpenPosition;
use crate::positions::Positions;
use fixed::FixedList;
use limits::LIVE_TICKETS;
use rules::candidate::Candidate;
use std::cmp::Reverse;
use terms::side::Side;

// What a free place holds.
const NO_POSITION: OpenPosition = OpenPosition {
    ticket: 0,
    instrument: 0,
    side: Side::Buy,
    result: 0,
    margin: 0,
};

const NO_CANDIDATE: Candidate = Candidate {
    ticket: 0,
    result: 0,
    margin: 0,
};

impl Positions {
    pub fn new() -> Positions
        ensures { held result ≡ [] }
    {
        Positions {
            list: FixedList::new(NO_POSITION),
        }
    }

    // Adds a position after the others.
    pub fn push(&mut self, position: OpenPosition)
        requires place { length (held self.old) < 32 }
        requires later { Above (held self.old) position.ticket }
        requires sized { SizedOne position }
        ensures { held self.new ≡ held self.old ++ position ∷ [] }
    {
        self.list.push(position);
    }

    // The positions as a slice, with what its type does not say.
    pub(crate) fn held(&self) -> &[OpenPosition]
        ensures value { result.now ≡ held self.now }
        ensures few { length result.now ≤ 32 }
        ensures sized { Sized result.now }
    {
        self.list.as_slice()
    }

    pub fn len(&self) -> usize
        ensures value { result ≡ length (held self.now) }
        ensures few { result ≤ 32 }
    {
        self.list.len()
    }

    // The floating results together.
    pub fn floating(&self) -> i64
        ensures value { result ≡ floating (held self.now) }
        ensures bound { Within result 32000000000000 }
    {
        let mut sum = 0i64;
        for position in self.held() {
            sum += position.result;
        }
        sum
    }

    // The list that a closing rule is told.
    pub fn candidates(&self) -> FixedList<Candidate, LIVE_TICKETS>
        ensures value { items result ≡ candidates (held self.now) }
        ensures told { 0 < length (held self.now) → Told (items result) }
    {
        let mut list = FixedList::new_in([NO_CANDIDATE; LIVE_TICKETS]);
        for &position in self.held() {
            list.push(position.into());
        }
        list
    }

    // The ticket of a position of largest margin, and of equals the first.
    pub fn heaviest(&self) -> Option<u16>
        ensures { Heaviest (held self.now) result }
    {
        self.held()
            .iter()
            .min_by_key(|position| Reverse(position.margin))
            .map(|position| position.ticket)
    }
}
