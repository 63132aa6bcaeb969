// How a checked instruction is made, and read.
ghost use Rattle.std.specs.Prelude.{◌≡◌, true};
ghost use Rattle.std.specs.Result.{result_map_both};
ghost use Rattle.terms.specs.Checks.{checked};
ghost use Rattle.instructions.specs.Inside.{inside};
ghost use Rattle.instructions.specs.Submitted.{passes, as_numbers, instructed};

use crate::checked::CheckedInstruction;
use crate::instruction::Instruction;
use crate::narrow::narrowed;
use crate::submission::Submission;
use terms::refusal::Refusal;

impl CheckedInstruction {
    // The instruction that was submitted, unless a number of it is outside its limits at the present time, which is asked beside it and so makes this no `TryFrom`.
    pub fn from_submission(submission: Submission, time: u32) -> Result<CheckedInstruction, Refusal>
        ensures { result_map_both instructed (λ refusal. refusal) result ≡ checked (passes time) (as_numbers submission) }
    {
        Ok(CheckedInstruction {
            instruction: narrowed(submission, time)?,
        })
    }

    pub fn instruction(self) -> Instruction
        ensures value { result ≡ instructed self }
        ensures within { inside result ≡ true }
    {
        self.instruction
    }
}
