// One client's account: positions and orders on three instruments.
ghost use Rattle.std.specs.Prelude.{◌≡◌};
ghost use Rattle.account.specs.Accounts.{model};
ghost use Rattle.account_demo.specs.Client.{newcomer, client};

use account::account::Account;
use terms::order::OrderType;
use terms::protection::{NO_PROTECTION, Protection};
use terms::side::Side;
use tickets::ticket::{TicketDetails, TicketState};

const PROTECTED: Protection = Protection {
    stop_loss: Some(13_300),
    take_profit: Some(13_700),
};

const BOUGHT: TicketDetails = TicketDetails {
    instrument: 1,
    volume: 50,
    protection: PROTECTED,
    state: TicketState::Position {
        side: Side::Buy,
        price: 13_502,
    },
};

const SOLD: TicketDetails = TicketDetails {
    instrument: 1,
    volume: 20,
    protection: NO_PROTECTION,
    state: TicketState::Position {
        side: Side::Sell,
        price: 13_500,
    },
};

const BOUGHT_INDIRECT: TicketDetails = TicketDetails {
    instrument: 2,
    volume: 1,
    protection: NO_PROTECTION,
    state: TicketState::Position {
        side: Side::Buy,
        price: 8_100,
    },
};

const SOLD_SHARE: TicketDetails = TicketDetails {
    instrument: 3,
    volume: 5,
    protection: NO_PROTECTION,
    state: TicketState::Position {
        side: Side::Sell,
        price: 25_000,
    },
};

const TO_BUY: TicketDetails = TicketDetails {
    instrument: 1,
    volume: 10,
    protection: NO_PROTECTION,
    state: TicketState::Pending {
        order: OrderType::BuyStop,
        level: 13_540,
        expiry: Some(86_400),
    },
};

const TO_BUY_INDIRECT: TicketDetails = TicketDetails {
    instrument: 2,
    volume: 3,
    protection: NO_PROTECTION,
    state: TicketState::Pending {
        order: OrderType::BuyLimit,
        level: 8_050,
        expiry: None,
    },
};

// 100,000 cents paid in at leverage 100 and stop-out level 60, and two positions.
fn newcomer() -> Account
    ensures { model result ≡ newcomer }
{
    let mut account = Account::new(100, 60);
    account.pay_in(100_000);
    let _ = account.add(BOUGHT_INDIRECT);
    let _ = account.add(BOUGHT);
    account
}

// Two positions more, and two orders.
pub fn client() -> Account
    ensures { model result ≡ client }
{
    let mut account = newcomer();
    let _ = account.add(SOLD);
    let _ = account.add(SOLD_SHARE);
    let _ = account.add(TO_BUY);
    let _ = account.add(TO_BUY_INDIRECT);
    account
}
