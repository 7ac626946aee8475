ghost use Rattle.std.specs.Prelude.{◌≡◌, ℕ, ◌+◌, ◌*◌, ◌%◌, ◌<◌, ◌≤◌, true, length, Ok, Err, MatchOption};
ghost use Rattle.std.specs.List.{flat_map};
ghost use Rattle.sheet.specs.Legal.{LegalSteps, LegalOperands};
ghost use Rattle.sheet.specs.Numerals.{numerals_list};
ghost use Rattle.sheet.specs.declared.refusal.Refusal.TheVariants.{SmallNumeral, IllegalStep, IllegalOutput};
ghost use Rattle.sheet_file.specs.Bytes.{word_bytes, step_bytes, output_bytes};
ghost use Rattle.sheet_file.specs.Reading.{NumeralEntry, StepEntry, OutputEntry, AllGood, Filled};
ghost use Rattle.sheet_file.specs.Checking.{FaultIn};

use crate::fault::Fault;
use crate::layout::Layout;
use crate::section::Section;
use sheet::{Numerals, Operand, Refusal, Step};

// The numerals of a section, or the first below 2. (The reader of outputs is like it, but fills an array of sixteen; this fills a list that
// refuses.)
pub(crate) fn read_numerals(section: Section) -> Result<Numerals, Fault>
    requires few { length section.bytes.now ≤ 16 }
    requires whole { length section.bytes.now % 2 ≡ 0 }
    ensures { elim result [ Ok ns ↦ flat_map word_bytes (numerals_list ns) ≡ section.entry.bytes.now | Err f ↦ FaultIn SmallNumeral 2 NumeralEntry section.entry.start section.entry.bytes.now f ] }
{
    let mut numerals = Numerals::none();
    let (entries, _) = section.bytes.as_chunks::<2>();
    for (k, [low, high]) in entries.iter().enumerate() {
        if let Err(_) = numerals.push(u16::from_le_bytes([*low, *high])) {
            return Err(Fault {
                why: Refusal::SmallNumeral,
                place: section.start + 2 * k,
            });
        }
    }
    Ok(numerals)
}

// The steps are taken off by a slice pattern (a rule of the project); so their numbers are counted by hand. They are gone through twice,
// since a file that is refused leaves the buffer as it was: once to check them, once to put them into it.

// Whether the steps of a section are legal; if not, the first that is not.
pub(crate) fn check_steps(section: Section, layout: Layout) -> Result<(), Fault>
    requires { length section.bytes.now ≡ 5 * layout.used }
    ensures { elim result [ Ok _ ↦ AllGood 5 (StepEntry layout.held) section.entry.bytes.now | Err f ↦ FaultIn IllegalStep 5 (StepEntry layout.held) section.entry.start section.entry.bytes.now f ] }
{
    let mut n = 0;
    let mut left = section.bytes;
    while let [code, ll, lh, rl, rh, rest @ ..] = left {
        let Some(_) = layout.step(*code, [*ll, *lh], [*rl, *rh], n) else {
            return Err(Fault {
                why: Refusal::IllegalStep,
                place: section.start + 5 * n,
            });
        };
        n += 1;
        left = rest;
    }
    Ok(())
}

// Puts the steps of a section, all of which are legal, at the front of the buffer.
pub(crate) fn fill_steps(section: Section, layout: Layout, buffer: &mut [Step])
    requires whole { length section.bytes.now ≡ 5 * layout.used }
    requires room { layout.used ≤ length buffer.old }
    requires good { AllGood 5 (StepEntry layout.held) section.bytes.now }
    ensures { Filled layout.held section.entry.bytes.now buffer.old buffer.new }
{
    let mut n = 0;
    let mut left = section.bytes;
    while let [code, ll, lh, rl, rh, rest @ ..] = left {
        let Some(step) = layout.step(*code, [*ll, *lh], [*rl, *rh], n) else {
            return;
        };
        buffer[n] = step;
        n += 1;
        left = rest;
    }
}

// The outputs of a section, or the first that does not exist.
pub(crate) fn read_outputs(section: Section, layout: Layout) -> Result<[Operand; 16], Fault>
    requires { length section.bytes.now ≡ 32 }
    ensures { elim result [ Ok os ↦ (length os ≡ 16) × (flat_map output_bytes os ≡ section.entry.bytes.now) × LegalOperands layout.held layout.used 16 os | Err f ↦ FaultIn IllegalOutput 2 (OutputEntry layout.held layout.used) section.entry.start section.entry.bytes.now f ] }
{
    let mut outputs = [Operand::default(); 16];
    let (entries, _) = section.bytes.as_chunks::<2>();
    for (k, bytes) in entries.iter().enumerate() {
        let Some(operand) = layout.output(*bytes) else {
            return Err(Fault {
                why: Refusal::IllegalOutput,
                place: section.start + 2 * k,
            });
        };
        outputs[k] = operand;
    }
    Ok(outputs)
}
