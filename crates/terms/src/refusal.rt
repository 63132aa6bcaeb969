// Why a call says no, each with its number.
ghost use Rattle.std.specs.Prelude.{◌≡◌};
ghost use Rattle.terms.specs.Refusals.{refusal_number};

#[derive(Clone, Copy)]
pub enum Refusal {
    ShortLog = 1,
    AccountNotOpen = 2,
    NotListed = 3,
    OutsideLimits = 4,
    GoesBack = 5,
    Exists = 6,
    NotAdmitted = 7,
    Busy = 8,
    NoneWaits = 9,
    InProcess = 10,
    FromAdvisor = 11,
    NotInProcess = 12,
    NoSuchTicket = 13,
    AboveOpen = 14,
    NoPrice = 15,
    OffPrice = 16,
    TooNear = 17,
    NoRoom = 18,
    ShortOfMoney = 19,
}

// An impl for each enum that has numbers: none can be written over all of them, and the gate refuses impls by a macro of our own.
impl From<Refusal> for u8 {
    ghost from_gives = { λ refusal number. number ≡ refusal_number refusal };

    fn from(refusal: Refusal) -> u8 {
        refusal as u8
    }
}
