// What an instruction asks for, in numbers as wide as their limits need.
use terms::order::OrderType;
use terms::protection::Protection;
use terms::side::Side;

// A deal at the market, at a price that may be off by the deviation.
#[derive(Clone, Copy)]
pub struct Opening {
    pub instrument: u8,
    pub side: Side,
    pub volume: u32,
    pub price: u32,
    pub deviation: u32,
    pub protection: Protection,
}

// The whole of a position, or a part of it.
#[derive(Clone, Copy)]
pub struct Closing {
    pub ticket: u16,
    pub volume: u32,
}

// A pending order, which ends at its expiry where it has one.
#[derive(Clone, Copy)]
pub struct Placement {
    pub instrument: u8,
    pub order: OrderType,
    pub volume: u32,
    pub level: u32,
    pub protection: Protection,
    pub expiry: Option<u32>,
}

// New levels: of a pending order where a level is given, and else of a position.
#[derive(Clone, Copy)]
pub struct Modification {
    pub ticket: u16,
    pub level: Option<u32>,
    pub protection: Protection,
}

#[derive(Clone, Copy)]
pub enum Instruction {
    Open(Opening),
    Close(Closing),
    Place(Placement),
    Modify(Modification),
    Delete(u16),
}
