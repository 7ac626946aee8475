ghost use Rattle.std.specs.Prelude.{◌≡◌};
ghost use Rattle.sheet.specs.Numbers.{operand_number, OperandNumbered};
ghost use Rattle.sheet.specs.Legal.{legal_operand, is_zero};

use crate::scope::Scope;

// What a step or an output refers to.
#[derive(Clone, Copy, PartialEq, Eq, Debug, Default)]
pub enum Operand {
    // a measure, 0 to 7
    Measure(u8),
    // a numeral of the sheet, 0 to 7
    Numeral(u8),
    One,
    #[default]
    Zero,
    // the result of the step with this number
    ResultOf(u16),
}

// A number that names no operand.
#[derive(Clone, Copy, PartialEq, Eq, Debug)]
pub struct UnknownOperand(pub u16);

// The number by which files and pages name the operand.
impl From<Operand> for u32 {
    ghost from_gives = { λ o n. n ≡ operand_number o };

    fn from(operand: Operand) -> u32 {
        match operand {
            Operand::Measure(i) => u32::from(i),
            Operand::Numeral(i) => 8 + u32::from(i),
            Operand::One => 16,
            Operand::Zero => 17,
            Operand::ResultOf(n) => 32 + u32::from(n),
        }
    }
}

// A file gives a number of 16 bits.
impl TryFrom<u16> for Operand {
    type Error = UnknownOperand;

    ghost try_from_gives = { OperandNumbered };

    fn try_from(number: u16) -> Result<Operand, UnknownOperand> {
        match number {
            0..=7 => Ok(Operand::Measure(number as u8)),
            8..=15 => Ok(Operand::Numeral((number - 8) as u8)),
            16 => Ok(Operand::One),
            17 => Ok(Operand::Zero),
            18..=31 => Err(UnknownOperand(number)),
            32.. => Ok(Operand::ResultOf(number - 32)),
        }
    }
}

impl Operand {
    // Whether the operand exists in a scope.
    pub fn is_legal(self, scope: Scope) -> bool
        ensures { result ≡ legal_operand scope.held scope.before self }
    {
        match self {
            Operand::Measure(i) => i < 8,
            Operand::Numeral(i) => i < scope.held,
            Operand::One | Operand::Zero => true,
            Operand::ResultOf(n) => usize::from(n) < scope.before,
        }
    }

    pub fn is_zero(self) -> bool
        ensures { result ≡ is_zero self }
    {
        matches!(self, Operand::Zero)
    }
}
