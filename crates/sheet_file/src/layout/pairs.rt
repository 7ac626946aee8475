ghost use Rattle.std.specs.Prelude.{◌≡◌, ℕ, ◌+◌, ◌*◌, ◌<◌, ◌≤◌, length, Ok, Err, Decides, MatchOption};
ghost use Rattle.sheet_file.specs.Reading.{word_at, Version, NumeralsPair, StepsPair, OutputsPair, LaidOut, BrokenLayout};
ghost use Rattle.sheet.specs.declared.refusal.Refusal.TheVariants.{Layout as WrongLayout};

use crate::fault::Fault;
use crate::layout::Layout;
use sheet::Refusal;

// A file of the version that is read; its header stands in it whole.
#[derive(Clone, Copy)]
struct Header<'a> {
    file: &'a [u8],
    ghost long: { 13 ≤ length file.now },
}

impl<'a> Header<'a> {
    fn of(file: &'a [u8]) -> Option<Header<'a>>
        ensures { MatchOption result (Version file.now → ⊥) (λ h. (h.file.now ≡ file.now) × Version file.now) }
    {
        if file.len() < 13 || file[0] != 3 {
            return None;
        }
        Some(Header { file })
    }

    fn word_at(&self, p: usize) -> u16
        requires { p ≤ 11 }
        ensures { result ≡ word_at self.now.file.now p }
    {
        u16::from_le_bytes([self.file[p], self.file[p + 1]])
    }

    // How many numerals the first pair gives. The next function is like it in shape, but not in place, start, width, limit and type.
    fn numerals(&self) -> Option<u8>
        ensures { MatchOption result ((h : ℕ) → NumeralsPair self.now.file.now h → ⊥) (λ h. NumeralsPair self.now.file.now h) }
    {
        let long = self.word_at(3);
        if self.word_at(1) != 13 || long > 16 || long % 2 != 0 {
            return None;
        }
        Some((long / 2) as u8)
    }

    // How many steps the second pair gives.
    fn steps(&self, held: u8) -> Option<u16>
        ensures { MatchOption result ((u : ℕ) → StepsPair self.now.file.now held u → ⊥) (λ u. StepsPair self.now.file.now held u) }
    {
        let long = self.word_at(7);
        if self.word_at(5) != 13 + 2 * u16::from(held) || long > 10000 || long % 5 != 0 {
            return None;
        }
        Some(long / 5)
    }

    // Whether the third pair gives the outputs, which end the file.
    fn has_outputs(&self, layout: Layout) -> bool
        ensures { Decides result (OutputsPair self.now.file.now layout.held layout.used) }
    {
        let start = layout.outputs_at();
        usize::from(self.word_at(9)) == start
            && self.word_at(11) == 32
            && self.file.len() == start + 32
    }
}

fn wrong_at(place: usize) -> Fault
    ensures why { result.why ≡ WrongLayout }
    ensures place { result.place ≡ place }
{
    Fault {
        why: Refusal::Layout,
        place,
    }
}

// The layout of a file, or the place where its header is wrong.
pub(crate) fn read_layout(file: &[u8]) -> Result<Layout, Fault>
    ensures { elim result [ Ok l ↦ LaidOut file.now l.held l.used | Err f ↦ (f.why ≡ WrongLayout) × BrokenLayout file.now f.place ] }
{
    let header = Header::of(file).ok_or(wrong_at(0))?;
    let held = header.numerals().ok_or(wrong_at(1))?;
    let used = header.steps(held).ok_or(wrong_at(5))?;
    let layout = Layout { held, used };
    header
        .has_outputs(layout)
        .then_some(layout)
        .ok_or(wrong_at(9))
}
