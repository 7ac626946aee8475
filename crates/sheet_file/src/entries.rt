ghost use Rattle.std.specs.Prelude.{◌≡◌, ℕ, ◌≤◌, true, ◌∷◌, ◌++◌, MatchOption};
ghost use Rattle.sheet.specs.Numbers.{operand_number, operation_number};
ghost use Rattle.sheet.specs.Legal.{legal_operand, legal_step};
ghost use Rattle.sheet_file.specs.Bytes.{word_bytes, step_bytes, output_bytes};
ghost use Rattle.sheet_file.specs.Codes.{NoOperand, NoStep};
ghost use Rattle.sheet_file.specs.Reading.{NumeralEntry, StepEntry, OutputEntry};

use crate::layout::Layout;
use sheet::{Operand, Operation, Step};

impl Layout {
    // The operand with this number that exists behind `before` steps, where there is one.
    fn operand(self, number: u16, before: usize) -> Option<Operand>
        ensures { MatchOption result (NoOperand self.held before number) (λ o. (legal_operand self.held before o ≡ true) × (operand_number o ≡ number)) }
    {
        let operand = Operand::try_from(number).ok()?;
        operand.is_legal(self.scope(before)).then_some(operand)
    }

    // The step with these numbers that is legal behind `before` steps, where there is one.
    fn step_of(self, code: u8, left: u16, right: u16, before: usize) -> Option<Step>
        ensures { MatchOption result (NoStep self.held before code left right) (λ s. (legal_step self.held before s ≡ true) × (operation_number s.operation ≡ code) × (operand_number s.left ≡ left) × (operand_number s.right ≡ right)) }
    {
        let Ok(operation) = Operation::try_from(code) else {
            return None;
        };
        let step = Step {
            operation,
            left: self.operand(left, before)?,
            right: self.operand(right, before)?,
        };
        step.is_legal(self.scope(before)).then_some(step)
    }

    // The step that five bytes stand for behind `before` steps, where there is one.
    pub(crate) fn step(self, code: u8, left: [u8; 2], right: [u8; 2], before: usize) -> Option<Step>
        ensures { MatchOption result (StepEntry self.held before (code ∷ (left ++ right)) → ⊥) (λ s. (legal_step self.held before s ≡ true) × (step_bytes s ≡ code ∷ (left ++ right))) }
    {
        let left = u16::from_le_bytes(left);
        let right = u16::from_le_bytes(right);
        self.step_of(code, left, right, before)
    }

    // The output that two bytes stand for, where there is one.
    pub(crate) fn output(self, bytes: [u8; 2]) -> Option<Operand>
        ensures { MatchOption result (OutputEntry self.held self.used 0 bytes → ⊥) (λ o. (legal_operand self.held self.used o ≡ true) × (output_bytes o ≡ bytes)) }
    {
        self.operand(u16::from_le_bytes(bytes), usize::from(self.used))
    }
}
