ghost use Rattle.std.specs.Prelude.{◌≡◌, map, length};
ghost use Rattle.sheet.specs.Values.{operand_value, step_value};

use crate::bench::{Bench, cell_or};
use ring::Ring;
use sheet::{Operand, Operation, Step};

// What a run reads besides its cells: the numerals of the sheet, and the measures.
#[derive(Drop)]
pub(crate) struct Setting<'a, R> {
    pub(crate) numerals: &'a [u16],
    pub(crate) measures: &'a [R],
}

impl<'a, R: Ring> Setting<'a, R> {
    // What an operand is worth; zero stands for a measure, a numeral or a cell that is not there.
    pub(crate) fn operand_value(&self, bench: &Bench<R>, operand: Operand) -> R
        ensures { R.meaning result ≡ operand_value R.ring self.now.numerals.now (map R.meaning self.now.measures.now) (map R.meaning bench.now.cells.now) operand }
    {
        match operand {
            Operand::Measure(i) => cell_or(self.measures, i as usize, R::zero()),
            Operand::Numeral(i) => R::numeral(cell_or(self.numerals, i as usize, 0)),
            Operand::One => R::one(),
            Operand::Zero => R::zero(),
            Operand::ResultOf(n) => bench.read_or(n as usize, R::zero()),
        }
    }

    // What a step is worth: its operation on what its operands are worth.
    pub(crate) fn step_value(&self, bench: &Bench<R>, step: Step) -> R
        ensures { R.meaning result ≡ step_value R.ring self.now.numerals.now (map R.meaning self.now.measures.now) (map R.meaning bench.now.cells.now) step }
    {
        let left = self.operand_value(bench, step.left);
        let right = self.operand_value(bench, step.right);
        match step.operation {
            Operation::Add => left.add(right),
            Operation::Sub => left.add(right.opposite()),
            Operation::Mul => left.multiply(right),
            Operation::Neg => left.opposite(),
        }
    }
}
