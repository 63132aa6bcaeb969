// An instrument's contract: the number of its kind, and the two numbers that its kind reads.

#[derive(Clone, Copy)]
pub struct Contract {
    pub number: u8,
    pub size: u32,
    pub percentage: u8,
}
