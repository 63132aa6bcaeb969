// A line of the log, and the code of what happened.
ghost use Rattle.std.specs.Prelude.{◌≡◌};
ghost use Rattle.terms.specs.Codes.{code_number};
ghost use Rattle.terms.specs.Refusals.{cause_number};

use crate::refusal::Refusal;

#[derive(Clone, Copy)]
pub enum Code {
    PaidIn = 1,
    PaidOut = 2,
    Placed = 3,
    Opened = 4,
    Filled = 5,
    Modified = 6,
    Deleted = 7,
    Expired = 8,
    Closed = 9,
    StopLoss = 10,
    TakeProfit = 11,
    StopOut = 12,
    Swap = 13,
    Declined = 14,
    Lapsed = 15,
    Removed = 16,
}

// By itself, as that of a refusal: none can be written over all enums that have numbers, nor by a macro.
impl From<Code> for u8 {
    ghost from_gives = { λ code number. number ≡ code_number code };

    fn from(code: Code) -> u8 {
        code as u8
    }
}

// A ticket, a price, a volume or an amount is 0 where none applies.
#[derive(Clone, Copy)]
pub struct Record {
    pub time: u32,
    pub account: u8,
    pub ticket: u16,
    pub code: Code,
    pub cause: Option<Refusal>,
    pub price: u32,
    pub volume: u32,
    pub amount: i64,
}

impl Record {
    // The number of the refusal that was the cause, and 0 where there is none; no `From`, as that 0 is a convention of records alone.
    pub fn cause_number(self) -> u8
        ensures { result ≡ cause_number self.cause }
    {
        self.cause.map_or(0, u8::from)
    }
}
