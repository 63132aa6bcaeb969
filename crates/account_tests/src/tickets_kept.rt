// How tickets come, change and go.
use account::account::Account;
use terms::protection::{NO_PROTECTION, Protection};
use terms::side::Side;
use tickets::ticket::{TicketDetails, TicketState};

const PROTECTED: Protection = Protection {
    stop_loss: Some(1_500),
    take_profit: Some(2_500),
};

const AT_2000: TicketState = TicketState::Position {
    side: Side::Buy,
    price: 2_000,
};

const BOUGHT: TicketDetails = TicketDetails {
    instrument: 1,
    volume: 10,
    protection: NO_PROTECTION,
    state: AT_2000,
};

const BOUGHT_ON_2: TicketDetails = TicketDetails {
    instrument: 2,
    volume: 20,
    protection: NO_PROTECTION,
    state: AT_2000,
};

const BOUGHT_ON_3: TicketDetails = TicketDetails {
    instrument: 3,
    volume: 30,
    protection: NO_PROTECTION,
    state: AT_2000,
};

const BOUGHT_ON_8: TicketDetails = TicketDetails {
    instrument: 8,
    volume: 10,
    protection: NO_PROTECTION,
    state: AT_2000,
};

const LARGEST: TicketDetails = TicketDetails {
    instrument: 8,
    volume: 10_000,
    protection: NO_PROTECTION,
    state: AT_2000,
};

#[test]
fn numbers_rise_and_places_come_back(rt: HostRuntime) {
    let mut account = Account::new(100, 50);
    for _ in 0..40 {
        if account.has_room() {
            let _ = account.add(BOUGHT);
        }
    }
    assert_eq!(rt; account.tickets().len(), 32);
    account.remove(7);
    account.remove(7);
    assert_eq!(rt; account.tickets().len(), 31);
    if account.has_room() {
        assert_eq!(rt; account.add(BOUGHT), 33);
    }
    assert_eq!(rt; account.tickets().len(), 32);
    assert!(rt; !account.has_room());
    assert!(rt; account.ticket(7).is_none());
    assert!(rt; account.ticket(33).is_some());
}

// The last number is 9,999, however few tickets are live.
#[test]
fn numbers_end(rt: HostRuntime) {
    let mut account = Account::new(1, 0);
    for number in 1..10_000u16 {
        if account.has_room() {
            assert_eq!(rt; account.add(LARGEST), number);
        }
        account.remove(number);
    }
    assert_eq!(rt; account.tickets().len(), 0);
    assert!(rt; !account.has_room());
}

// A ticket of 10 is closed in parts, and the balance takes each result.
#[test]
fn parts_close(rt: HostRuntime) {
    let mut account = Account::new(1, 0);
    account.pay_in(1_000);
    let number = account.add(BOUGHT_ON_8);
    account.close(number, 4, -700);
    assert_eq!(rt; account.ticket(number).map(|t| t.volume), Some(6));
    assert_eq!(rt; account.balance(), 300);
    assert_eq!(rt; account.paid_in(), 1_000);
    account.close(number, 6, 50);
    assert!(rt; account.ticket(number).is_none());
    assert_eq!(rt; account.balance(), 350);
    account.pay_out(350);
    assert_eq!(rt; account.balance(), 0);
}

// Ticket 2 of three gets levels, and the others have none afterwards, as before.
#[test]
fn one_ticket_changes(rt: HostRuntime) {
    let mut account = Account::new(1, 0);
    let _ = account.add(BOUGHT);
    let _ = account.add(BOUGHT_ON_2);
    let _ = account.add(BOUGHT_ON_3);
    match account.ticket(2) {
        Some(ticket) => account.change(ticket.modified(None, PROTECTED)),
        None => assert!(rt; false),
    }
    for (number, volume, stop_loss) in [(1, 10, None), (2, 20, Some(1_500)), (3, 30, None)] {
        let ticket = account.ticket(number);
        assert_eq!(rt; ticket.map(|t| t.volume), Some(volume));
        assert_eq!(rt; ticket.map(|t| t.protection.stop_loss), Some(stop_loss));
    }
}

#[test]
fn a_night_passes(rt: HostRuntime) {
    let mut account = Account::new(1, 0);
    account.pay_in(100);
    account.pass_night(-125);
    assert_eq!(rt; account.balance(), -25);
    account.pass_night(30);
    assert_eq!(rt; account.balance(), 5);
}
