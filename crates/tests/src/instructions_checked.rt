// Which submitted instructions are accepted, at time 100.
use instructions::checked::CheckedInstruction;
use instructions::submission::{
    Submission, SubmittedClosing, SubmittedModification, SubmittedOpening, SubmittedPlacement,
    SubmittedProtection,
};
use terms::order::OrderType;
use terms::side::Side;

const TIME: u32 = 100;

const UNPROTECTED: SubmittedProtection = SubmittedProtection {
    stop_loss: 0,
    take_profit: 0,
};

// Instrument, volume, price, deviation, stop loss, take profit, and whether the opening is accepted.
const OPENINGS: [(u64, u64, u64, u64, u64, u64, bool); 12] = [
    (1, 1, 1_000, 0, 0, 0, true),
    (8, 10_000, 1_000_000, 10_000, 1_000, 1_000_000, true),
    (0, 1, 1_000, 0, 0, 0, false),
    (9, 1, 1_000, 0, 0, 0, false),
    (1, 0, 1_000, 0, 0, 0, false),
    (1, 10_001, 1_000, 0, 0, 0, false),
    (1, 1, 0, 0, 0, 0, false),
    (1, 1, 1_000_001, 0, 0, 0, false),
    (1, 1, 1_000, 10_001, 0, 0, false),
    (1, 1, 1_000, 0, 999, 0, false),
    (1, 1, 1_000, 0, 0, 1_000_001, false),
    (18_446_744_073_709_551_615, 1, 1_000, 0, 0, 0, false),
];

#[test]
fn openings(rt: HostRuntime) {
    for (instrument, volume, price, deviation, stop_loss, take_profit, accepted) in OPENINGS {
        let submission = Submission::Open(SubmittedOpening {
            instrument,
            side: Side::Buy,
            volume,
            price,
            deviation,
            protection: SubmittedProtection {
                stop_loss,
                take_profit,
            },
        });
        assert_eq!(rt;
            CheckedInstruction::from_submission(submission, TIME).is_ok(),
            accepted
        );
    }
}

// Level, expiry, and whether the placement is accepted.
const PLACEMENTS: [(u64, u64, bool); 6] = [
    (1_000, 0, true),
    (1_000, 101, true),
    (1_000, 2_000_000_000, true),
    (1_000, 100, false),
    (1_000, 2_000_000_001, false),
    (0, 0, false),
];

#[test]
fn placements(rt: HostRuntime) {
    for (level, expiry, accepted) in PLACEMENTS {
        let submission = Submission::Place(SubmittedPlacement {
            instrument: 1,
            order: OrderType::SellStop,
            volume: 1,
            level,
            protection: UNPROTECTED,
            expiry,
        });
        assert_eq!(rt;
            CheckedInstruction::from_submission(submission, TIME).is_ok(),
            accepted
        );
    }
}

// Ticket, level, volume, and whether a modification, a closing and a deletion are accepted.
const TICKETS: [(u64, u64, u64, bool, bool, bool); 6] = [
    (1, 0, 1, true, true, true),
    (9_999, 1_000, 10_000, true, true, true),
    (0, 0, 1, false, false, false),
    (10_000, 0, 1, false, false, false),
    (1, 999, 1, false, true, true),
    (1, 0, 0, true, false, true),
];

#[test]
fn tickets(rt: HostRuntime) {
    for (ticket, level, volume, modified, closed, deleted) in TICKETS {
        let modify = Submission::Modify(SubmittedModification {
            ticket,
            level,
            protection: UNPROTECTED,
        });
        let close = Submission::Close(SubmittedClosing { ticket, volume });
        let delete = Submission::Delete(ticket);
        assert_eq!(rt;
            CheckedInstruction::from_submission(modify, TIME).is_ok(),
            modified
        );
        assert_eq!(rt;
            CheckedInstruction::from_submission(close, TIME).is_ok(),
            closed
        );
        assert_eq!(rt;
            CheckedInstruction::from_submission(delete, TIME).is_ok(),
            deleted
        );
    }
}
