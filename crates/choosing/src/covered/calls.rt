ghost use Rattle.std.specs.Prelude.{◌≡◌, ℕ, false, ◌||◌, ◌==◌};
ghost use Rattle.choosing.specs.Taken.{covers};

use crate::covered::Covered;

impl Covered {
    // No row is covered.
    pub(crate) fn new() -> Covered
        ensures { (q : ℕ) → covers result q ≡ false }
    {
        Covered {
            marks: [false; 256],
        }
    }

    // Whether the row is covered.
    pub(crate) fn has(&self, row: u8) -> bool
        ensures { result ≡ covers self.now row }
    {
        self.marks[row as usize]
    }

    // Covers the row.
    pub(crate) fn add(&mut self, row: u8)
        ensures { (q : ℕ) → covers self.new q ≡ (q == row || covers self.old q) }
    {
        self.marks[row as usize] = true;
    }
}
