// The terms under which an instrument is listed.
use terms::contract::Contract;

// The near distance is in points, the hedge share in percent, and a swap rate in cents for a lot and a night.
#[derive(Clone, Copy)]
pub struct Listing {
    pub contract: Contract,
    pub near: u32,
    pub hedge: u8,
    pub buy_swap: i32,
    pub sell_swap: i32,
}
