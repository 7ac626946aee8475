ghost use Rattle.std.specs.Prelude.{◌≡◌};
ghost use Rattle.sheet.specs.Numbers.{operation_number, OperationNumbered};

// What a step does with its operands; `Neg` takes the left one alone.
// The discriminants are the numbers by which files and pages name the operations.
#[derive(Clone, Copy, PartialEq, Eq, Debug, Default)]
pub enum Operation {
    #[default]
    Add = 1,
    Sub = 2,
    Mul = 3,
    Neg = 4,
}

// A number that names no operation.
#[derive(Clone, Copy, PartialEq, Eq, Debug)]
pub struct UnknownOperation(pub u8);

impl From<Operation> for u8 {
    ghost from_gives = { λ o n. n ≡ operation_number o };

    fn from(operation: Operation) -> u8 {
        operation as u8
    }
}

impl TryFrom<u8> for Operation {
    type Error = UnknownOperation;

    ghost try_from_gives = { OperationNumbered };

    fn try_from(number: u8) -> Result<Operation, UnknownOperation> {
        match number {
            1 => Ok(Operation::Add),
            2 => Ok(Operation::Sub),
            3 => Ok(Operation::Mul),
            4 => Ok(Operation::Neg),
            _ => Err(UnknownOperation(number)),
        }
    }
}
