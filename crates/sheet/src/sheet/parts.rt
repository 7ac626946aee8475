ghost use Rattle.std.specs.Prelude.{◌≡◌};
ghost use Rattle.sheet.specs.Parts.{sheet_numerals, sheet_steps, sheet_outputs, sheet_room, Lawful};
ghost use Rattle.sheet.specs.Counting.{Counted};

use crate::counts::Counts;
use crate::operand::Operand;
use crate::sheet::Sheet;
use crate::step::Step;

impl Sheet {
    pub fn numerals(&self) -> &[u16]
        ensures { result.now ≡ sheet_numerals self.now }
    {
        self.numerals.as_slice()
    }

    fn front(&self) -> &[Step]
        ensures { result.now ≡ sheet_steps self.now }
    {
        &self.buffer.as_slice()[0..self.used as usize]
    }

    // The steps; with them, the rules that every sheet keeps.
    pub fn steps(&self) -> &[Step]
        ensures value { result.now ≡ sheet_steps self.now }
        ensures lawful { Lawful (sheet_numerals self.now) (sheet_steps self.now) (sheet_outputs self.now) }
    {
        self.front()
    }

    pub fn outputs(&self) -> &[Operand]
        ensures { result.now ≡ sheet_outputs self.now }
    {
        &self.outputs
    }

    // How many steps of each sort there are.
    pub fn counts(&self) -> Counts
        ensures { Counted (sheet_steps self.now) result }
    {
        Counts::of(self.steps())
    }

    // The buffer, with the steps at its front and what stood behind them.
    pub fn into_buffer(self) -> Vec<Step>
        ensures { result.items ≡ sheet_room self }
    {
        let Sheet { buffer, .. } = self;
        buffer
    }
}
