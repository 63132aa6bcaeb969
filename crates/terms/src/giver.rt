// Who gave an instruction.
ghost use Rattle.std.specs.Prelude.{◌≡◌};
ghost use Rattle.std.specs.Option.{ok_or};
ghost use Rattle.terms.specs.declared.refusal.Refusal.TheVariants.{OutsideLimits};
ghost use Rattle.terms.specs.Givers.{giver_of, giver_number};

use crate::refusal::Refusal;

#[derive(Clone, Copy)]
pub enum Giver {
    Client = 0,
    Advisor = 1,
}

// The giver of a number, where there is one.
impl TryFrom<u64> for Giver {
    type Error = Refusal;

    ghost try_from_gives = { λ number given. given ≡ ok_or (giver_of number) OutsideLimits };

    fn try_from(number: u64) -> Result<Giver, Refusal> {
        match number {
            0 => Ok(Giver::Client),
            1 => Ok(Giver::Advisor),
            _ => Err(Refusal::OutsideLimits),
        }
    }
}

// By itself, as that of a refusal: none can be written over all enums that have numbers, nor by a macro.
impl From<Giver> for u64 {
    ghost from_gives = { λ giver number. number ≡ giver_number giver };

    fn from(giver: Giver) -> u64 {
        giver as u64
    }
}
