ghost use Rattle.std.specs.Prelude.{◌≡◌};
ghost use Rattle.sheet.specs.Legal.{legal_step};

use crate::operand::Operand;
use crate::operation::Operation;
use crate::scope::Scope;

// One operation on two operands.
#[derive(Clone, Copy, PartialEq, Eq, Debug, Default)]
pub struct Step {
    pub operation: Operation,
    pub left: Operand,
    pub right: Operand,
}

impl Step {
    // Whether the step may stand in a scope.
    pub fn is_legal(self, scope: Scope) -> bool
        ensures { result ≡ legal_step scope.held scope.before self }
    {
        if !self.left.is_legal(scope) || !self.right.is_legal(scope) {
            return false;
        }
        match self.operation {
            Operation::Neg => self.right.is_zero(),
            Operation::Add | Operation::Sub | Operation::Mul => true,
        }
    }
}
