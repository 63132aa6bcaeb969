// An instruction as it is submitted: any number may stand in any field, and 0 stands for no level and no expiry.
use terms::order::OrderType;
use terms::side::Side;

#[derive(Clone, Copy)]
pub struct SubmittedProtection {
    pub stop_loss: u64,
    pub take_profit: u64,
}

#[derive(Clone, Copy)]
pub struct SubmittedOpening {
    pub instrument: u64,
    pub side: Side,
    pub volume: u64,
    pub price: u64,
    pub deviation: u64,
    pub protection: SubmittedProtection,
}

#[derive(Clone, Copy)]
pub struct SubmittedClosing {
    pub ticket: u64,
    pub volume: u64,
}

#[derive(Clone, Copy)]
pub struct SubmittedPlacement {
    pub instrument: u64,
    pub order: OrderType,
    pub volume: u64,
    pub level: u64,
    pub protection: SubmittedProtection,
    pub expiry: u64,
}

#[derive(Clone, Copy)]
pub struct SubmittedModification {
    pub ticket: u64,
    pub level: u64,
    pub protection: SubmittedProtection,
}

#[derive(Clone, Copy)]
pub enum Submission {
    Open(SubmittedOpening),
    Close(SubmittedClosing),
    Place(SubmittedPlacement),
    Modify(SubmittedModification),
    Delete(u64),
}
