// The check of a submitted instruction's numbers, which gives them in narrower types.
ghost use Rattle.std.specs.Prelude.{◌≡◌, ℕ, ◌^◌, ◌<◌, true, ◌&&◌, nat_lt};
ghost use Rattle.limits.specs.Quantities.{admits};
ghost use Rattle.limits.specs.Bounds.{instrument_ok, ticket_ok, time_ok};
ghost use Rattle.terms.specs.Checks.{checked};
ghost use Rattle.terms.specs.Protections.{optionally, protection_ok};
ghost use Rattle.instructions.specs.Inside.{inside, opening_ok, closing_ok, placement_ok, modification_ok};
ghost use Rattle.instructions.specs.Submitted.{passes, Checks, Passing, as_numbers, optional, protection_of, opening_of, closing_of, placement_of, modification_of};

use crate::instruction::{Closing, Instruction, Modification, Opening, Placement};
use crate::submission::{
    Submission, SubmittedClosing, SubmittedModification, SubmittedOpening, SubmittedPlacement,
    SubmittedProtection,
};
use limits::Quantity;
use terms::protection::Protection;
use terms::refusal::Refusal;

// The number, unless it is outside the limits of its quantity. The cast is proved to keep it: `try_from` and `unwrap` would be longer and say no more.
fn inside(quantity: Quantity, n: u64) -> Result<u32, Refusal>
    requires { (m : ℕ) → admits quantity m ≡ true → m < 2 ^ 32 }
    ensures { Checks (admits quantity) n result }
{
    if quantity.admits(n) {
        Ok(n as u32)
    } else {
        Err(Refusal::OutsideLimits)
    }
}

// Narrower by a cast that is proved to keep the number, as in the next.
fn instrument(n: u64) -> Result<u8, Refusal>
    ensures { Checks instrument_ok n result }
{
    Ok(inside(Quantity::Instrument, n)? as u8)
}

fn ticket(n: u64) -> Result<u16, Refusal>
    ensures { Checks ticket_ok n result }
{
    Ok(inside(Quantity::Ticket, n)? as u16)
}

// A number as `inside` has it, where 0 stands for none.
fn optional(quantity: Quantity, n: u64) -> Result<Option<u32>, Refusal>
    requires { (m : ℕ) → admits quantity m ≡ true → m < 2 ^ 32 }
    ensures { Checks (optionally (admits quantity)) (optional n) result }
{
    match n {
        0 => Ok(None),
        _ => Ok(Some(inside(quantity, n)?)),
    }
}

// No expiry, or one that lies after the present time.
fn optional_expiry(n: u64, time: u32) -> Result<Option<u32>, Refusal>
    ensures value { result ≡ checked (λ t. optionally time_ok t && optionally (nat_lt time) t) (optional n) }
    ensures within { Passing (optionally time_ok) result }
{
    match optional(Quantity::Time, n)? {
        Some(expiry) if expiry <= time => Err(Refusal::OutsideLimits),
        expiry => Ok(expiry),
    }
}

impl TryFrom<SubmittedProtection> for Protection {
    type Error = Refusal;

    ghost try_from_gives = { λ given made. Checks protection_ok (protection_of given.stop_loss given.take_profit) made };

    fn try_from(given: SubmittedProtection) -> Result<Protection, Refusal> {
        Ok(Protection {
            stop_loss: optional(Quantity::Price, given.stop_loss)?,
            take_profit: optional(Quantity::Price, given.take_profit)?,
        })
    }
}

impl TryFrom<SubmittedOpening> for Opening {
    type Error = Refusal;

    ghost try_from_gives = { λ given made. Checks opening_ok (opening_of given) made };

    fn try_from(given: SubmittedOpening) -> Result<Opening, Refusal> {
        Ok(Opening {
            instrument: instrument(given.instrument)?,
            side: given.side,
            volume: inside(Quantity::Volume, given.volume)?,
            price: inside(Quantity::Price, given.price)?,
            deviation: inside(Quantity::Distance, given.deviation)?,
            protection: given.protection.try_into()?,
        })
    }
}

impl TryFrom<SubmittedClosing> for Closing {
    type Error = Refusal;

    ghost try_from_gives = { λ given made. Checks closing_ok (closing_of given) made };

    fn try_from(given: SubmittedClosing) -> Result<Closing, Refusal> {
        let SubmittedClosing {
            ticket: number,
            volume,
        } = given;
        Ok(Closing {
            ticket: ticket(number)?,
            volume: inside(Quantity::Volume, volume)?,
        })
    }
}

// The expiry is compared with the present time, so this is no conversion of the submitted numbers alone.
fn placement(given: SubmittedPlacement, time: u32) -> Result<Placement, Refusal>
    ensures value { result ≡ checked (λ p. placement_ok p && optionally (nat_lt time) p.expiry) (placement_of given) }
    ensures within { Passing placement_ok result }
{
    Ok(Placement {
        instrument: instrument(given.instrument)?,
        order: given.order,
        volume: inside(Quantity::Volume, given.volume)?,
        level: inside(Quantity::Price, given.level)?,
        protection: given.protection.try_into()?,
        expiry: optional_expiry(given.expiry, time)?,
    })
}

impl TryFrom<SubmittedModification> for Modification {
    type Error = Refusal;

    ghost try_from_gives = { λ given made. Checks modification_ok (modification_of given) made };

    fn try_from(given: SubmittedModification) -> Result<Modification, Refusal> {
        Ok(Modification {
            ticket: ticket(given.ticket)?,
            level: optional(Quantity::Price, given.level)?,
            protection: given.protection.try_into()?,
        })
    }
}

// The same numbers in narrower types, where all are inside their limits; no `TryFrom`, since the present time is asked beside them.
pub fn narrowed(submission: Submission, time: u32) -> Result<Instruction, Refusal>
    ensures value { result ≡ checked (passes time) (as_numbers submission) }
    ensures within { Passing inside result }
{
    Ok(match submission {
        Submission::Open(given) => Instruction::Open(given.try_into()?),
        Submission::Close(given) => Instruction::Close(given.try_into()?),
        Submission::Place(given) => Instruction::Place(placement(given, time)?),
        Submission::Modify(given) => Instruction::Modify(given.try_into()?),
        Submission::Delete(number) => Instruction::Delete(ticket(number)?),
    })
}
