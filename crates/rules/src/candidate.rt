// An open position as a closing rule is told of it.

// Candidates compare by their floating results alone: among equals a rule goes by the place in the list.
#[derive_where(PartialEq, Eq, PartialOrd, Ord)]
#[derive(Clone, Copy)]
pub struct Candidate {
    #[derive_where(skip(EqHashOrd))]
    pub ticket: u16,
    pub result: i64,
    #[derive_where(skip(EqHashOrd))]
    pub margin: u64,
}
