ghost use Rattle.std.specs.Prelude.{◌≡◌, ◌≤◌, [], ◌∷◌, ◌++◌, length, Ok, Err};
ghost use Rattle.sheet.specs.Numerals.{numerals_list, push_answer};

use crate::numerals::Numerals;
use crate::refusal::Refusal;
use few::Few;

impl Numerals {
    pub fn none() -> Numerals
        ensures { numerals_list result ≡ [] }
    {
        Numerals { values: Few::new() }
    }

    pub fn count(&self) -> u8
        ensures { result ≡ length (numerals_list self.now) }
    {
        self.values.len() as u8
    }

    pub fn as_slice(&self) -> &[u16]
        ensures { result.now ≡ numerals_list self.now }
    {
        self.values.as_slice()
    }

    // One numeral more; refused where eight are held, or the number is below 2.
    pub fn push(&mut self, n: u16) -> Result<(), Refusal>
        ensures answer { result ≡ push_answer (length (numerals_list self.old)) n }
        ensures held { elim result [ Ok _ ↦ numerals_list self.new ≡ numerals_list self.old ++ n ∷ [] | Err _ ↦ self.new ≡ self.old ] }
    {
        if self.count() >= 8 {
            return Err(Refusal::Layout);
        }
        if n < 2 {
            return Err(Refusal::SmallNumeral);
        }
        self.values.push(n).map_err(|_| Refusal::Layout)
    }
}
