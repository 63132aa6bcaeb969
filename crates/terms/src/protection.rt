// The levels at which a position is closed again, where there are any.
#[derive(Clone, Copy)]
pub struct Protection {
    pub stop_loss: Option<u32>,
    pub take_profit: Option<u32>,
}

pub const NO_PROTECTION: Protection = Protection {
    stop_loss: None,
    take_profit: None,
};
