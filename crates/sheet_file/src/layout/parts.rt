ghost use Rattle.std.specs.Prelude.{◌≡◌, ℕ, ◌+◌, ◌*◌, ◌≤◌, length};
ghost use Rattle.std.specs.List.{between};
ghost use Rattle.sheet_file.specs.File.{steps_start, outputs_start, file_length};
ghost use Rattle.sheet_file.specs.Reading.{numerals_part, steps_part, outputs_part};

use crate::layout::Layout;
use crate::section::Section;
use sheet::Scope;

// A part of a file is cut out as a slice from its offset to offset plus length: a rule of the project. Each of the three parts asks that the
// file has the layout's length: the layout is the two numbers alone, by which an entry is decoded without the file.
fn section(file: &[u8], start: usize, len: usize) -> Section<'_>
    requires { start + len ≤ length file.now }
    ensures bytes { result.bytes.now ≡ between start (start + len) file.now }
    ensures start { result.start ≡ start }
{
    Section {
        bytes: &file[start..start + len],
        start,
    }
}

impl Layout {
    // What stands before an operand behind so many steps.
    pub(crate) fn scope(self, before: usize) -> Scope
        ensures held { result.held ≡ self.held }
        ensures before { result.before ≡ before }
    {
        Scope {
            held: self.held,
            before,
        }
    }

    // Where the steps begin.
    pub(crate) fn steps_at(self) -> usize
        ensures { result ≡ steps_start self.held }
    {
        13 + 2 * usize::from(self.held)
    }

    // Where the outputs begin.
    pub(crate) fn outputs_at(self) -> usize
        ensures { result ≡ outputs_start self.held self.used }
    {
        self.steps_at() + 5 * usize::from(self.used)
    }

    pub(crate) fn numerals(self, file: &[u8]) -> Section<'_>
        requires { length file.now ≡ file_length self.held self.used }
        ensures bytes { result.bytes.now ≡ numerals_part file.now self.held }
        ensures long { length result.bytes.now ≡ 2 * self.held }
        ensures start { result.start ≡ 13 }
    {
        section(file, 13, 2 * usize::from(self.held))
    }

    pub(crate) fn steps(self, file: &[u8]) -> Section<'_>
        requires { length file.now ≡ file_length self.held self.used }
        ensures bytes { result.bytes.now ≡ steps_part file.now self.held self.used }
        ensures long { length result.bytes.now ≡ 5 * self.used }
        ensures start { result.start ≡ steps_start self.held }
    {
        section(file, self.steps_at(), 5 * usize::from(self.used))
    }

    pub(crate) fn outputs(self, file: &[u8]) -> Section<'_>
        requires { length file.now ≡ file_length self.held self.used }
        ensures bytes { result.bytes.now ≡ outputs_part file.now self.held self.used }
        ensures long { length result.bytes.now ≡ 32 }
        ensures start { result.start ≡ outputs_start self.held self.used }
    {
        section(file, self.outputs_at(), 32)
    }
}
