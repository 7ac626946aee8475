ghost use Rattle.std.specs.Prelude.{[], ◌∷◌};
ghost use Rattle.emitter.specs.Appended.{HasRoom};
ghost use Rattle.emitter.specs.Chained.{Chained};

use sheet::{Operand, Operation, Step};

// A buffer of steps that is written from the front, and the number of the next step. The number stands beside the buffer, since
// that keeps its length: the places from `next` on stay as they were handed in.
#[derive(Drop)]
pub(crate) struct Draft {
    pub(crate) steps: Vec<Step>,
    pub(crate) next: u16,
}

impl Draft {
    // One step more, on the operand made so far.
    pub(crate) fn link(&mut self, made: Operand, operation: Operation, right: Operand) -> Operand
        requires { HasRoom self.old 1 }
        ensures { Chained self.old made ((operation, right) ∷ []) result self.new }
    {
        let at = self.next;
        self.steps[at as usize] = Step {
            operation,
            left: made,
            right,
        };
        self.next = at + 1;
        Operand::ResultOf(at)
    }
}
