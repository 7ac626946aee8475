ghost use Rattle.std.specs.Prelude.{◌≡◌, ◌≤◌, length, slice_index};
ghost use Rattle.opening.specs.Checks.{power_sum};

// How many measures there are, and so how many powers a term has.
pub(crate) const MEASURES: usize = 8;

// Powers that a term may have: one for each measure, with a sum of 24 at most.
#[derive(Clone, Copy)]
pub(crate) struct TermPowers {
    pub(crate) each: [u64; MEASURES],
    ghost eight: { length each ≡ 8 },
    ghost light: { power_sum each ≤ 24 },
}

impl TermPowers {
    // The power of a letter: that of a measure is the term's, and that of any other is 0.
    pub(crate) fn of(&self, letter: usize) -> u8
        ensures { result ≡ slice_index self.now.each letter }
    {
        self.each.get(letter).map_or(0, |p| *p as u8)
    }
}
