ghost use Rattle.std.specs.Prelude.{◌≡◌, ℕ, ◌<◌, ◌≤◌, true, length, Ok, Err, vec_len, Decides};
ghost use Rattle.sheet.specs.Legal.{LegalSteps, LegalOperands};
ghost use Rattle.sheet.specs.Numerals.{numerals_list};
ghost use Rattle.sheet.specs.Making.{Made, Broken, Kept};

use crate::numerals::Numerals;
use crate::operand::Operand;
use crate::refusal::{Refusal, Refused};
use crate::scope::Scope;
use crate::sheet::Sheet;
use crate::step::Step;

// Whether each step is legal at its place.
fn steps_legal(steps: &[Step], held: u8) -> bool
    ensures { Decides result (LegalSteps held (length steps.now) steps.now) }
{
    steps
        .iter()
        .enumerate()
        .all(|(before, step)| step.is_legal(Scope { held, before }))
}

// Whether each output exists in the scope behind the steps.
fn outputs_legal(outputs: &[Operand; 16], scope: Scope) -> bool
    ensures { Decides result (LegalOperands scope.held scope.before 16 outputs.now) }
{
    outputs.iter().all(|output| output.is_legal(scope))
}

// Whether the parts keep the rules; if not, the first rule that they break.
fn check(held: u8, buffer: &[Step], used: usize, outputs: &[Operand; 16]) -> Result<(), Refusal>
    ensures { elim result [ Ok _ ↦ Kept held (length buffer.now) buffer.now used outputs.now | Err why ↦ Broken why held (length buffer.now) buffer.now used outputs.now ] }
{
    if used > 2000 {
        return Err(Refusal::Layout);
    }
    if buffer.len() < used {
        return Err(Refusal::ShortBuffer);
    }
    if !steps_legal(&buffer[..used], held) {
        return Err(Refusal::IllegalStep);
    }
    if !outputs_legal(outputs, Scope { held, before: used }) {
        return Err(Refusal::IllegalOutput);
    }
    Ok(())
}

impl Sheet {
    // The sheet whose steps are the first `used` of the buffer; else the buffer as it was.
    pub fn make(
        numerals: Numerals,
        buffer: Vec<Step>,
        used: usize,
        outputs: [Operand; 16],
    ) -> Result<Sheet, Refused>
        ensures { elim result [ Ok s ↦ Made (numerals_list numerals) buffer.items used outputs s | Err e ↦ (e.buffer ≡ buffer) × Broken e.why (length (numerals_list numerals)) (vec_len buffer) buffer.items used outputs ] }
    {
        match check(numerals.count(), &buffer, used, &outputs) {
            Ok(()) => Ok(Sheet {
                numerals,
                buffer,
                used: used as u16,
                outputs,
            }),
            Err(why) => Err(Refused { why, buffer }),
        }
    }
}
