ghost use Rattle.std.specs.Prelude.{◌≡◌, ◌^◌};
ghost use Rattle.sheet.specs.Counting.{Counted, Below, OneMore};

use crate::operation::Operation;
use crate::step::Step;

// How many steps multiply, how many add or subtract, and how many negate.
#[derive(Clone, Copy, PartialEq, Eq, Debug, Default)]
pub struct Counts {
    pub multiplications: usize,
    pub additions: usize,
    pub negations: usize,
}

impl Counts {
    pub fn of(steps: &[Step]) -> Counts
        ensures { Counted steps.now result }
    {
        let mut counts = Counts::default();
        for step in steps {
            counts = counts.with(step.operation);
        }
        counts
    }

    // One step more.
    fn with(mut self, operation: Operation) -> Counts
        requires { Below self (2 ^ 63) }
        ensures { OneMore self operation result }
    {
        match operation {
            Operation::Add | Operation::Sub => self.additions += 1,
            Operation::Mul => self.multiplications += 1,
            Operation::Neg => self.negations += 1,
        }
        self
    }
}
