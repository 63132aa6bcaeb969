// An instruction whose numbers are inside their limits by its type, so that nothing later asks again.
ghost use Rattle.std.specs.Prelude.{◌≡◌, true};
ghost use Rattle.instructions.specs.Inside.{inside};

use crate::instruction::Instruction;

mod methods;

#[derive(Clone, Copy)]
pub struct CheckedInstruction {
    instruction: Instruction,
    ghost within: { inside instruction ≡ true },
}
