ghost use Rattle.std.specs.Prelude.{◌≡◌, ℕ, ◌≤◌, length, drop, Ok, Err, vec_len};
ghost use Rattle.sheet.specs.declared.sheet.Sheet.{Sheet as MadeSheet};
ghost use Rattle.sheet.specs.Parts.{sheet_steps, sheet_behind, SameSheet};
ghost use Rattle.sheet_file.specs.File.{sheet_bytes};
ghost use Rattle.sheet_file.specs.Reading.{RefusedAt};
ghost use Rattle.sheet_file.specs.Checking.{Passed};

use crate::fault::Fault;
use crate::layout::{Layout, read_layout};
use crate::sections::{check_steps, fill_steps, read_numerals, read_outputs};
use sheet::{Numerals, Operand, Refusal, Sheet, Step};

// Why a file is refused, at which byte, and the step buffer as it was handed in. (Each call's refusal hands back what is its own: a buffer, a
// place and a buffer, a place alone. So they are types of their own.)
#[derive(Drop)]
pub struct ReadRefused {
    pub why: Refusal,
    pub place: usize,
    pub buffer: Vec<Step>,
}

// What a file that keeps all rules holds, but for its steps.
#[derive(Clone, Copy)]
struct Checked {
    layout: Layout,
    numerals: Numerals,
    outputs: [Operand; 16],
}

// Checks a file by all rules, in their order, for a buffer with `room` places.
fn check(file: &[u8], room: usize) -> Result<Checked, Fault>
    ensures { elim result [ Ok k ↦ Passed file.now room k.layout.held k.layout.used k.numerals k.outputs | Err f ↦ RefusedAt f.why f.place file.now room ] }
{
    let layout = read_layout(file)?;
    if room < layout.used as usize {
        return Err(Fault {
            why: Refusal::ShortBuffer,
            place: 0,
        });
    }
    let numerals = read_numerals(layout.numerals(file))?;
    check_steps(layout.steps(file), layout)?;
    let outputs = read_outputs(layout.outputs(file), layout)?;
    Ok(Checked {
        layout,
        numerals,
        outputs,
    })
}

// Reads a file into a sheet whose steps stand in the buffer.
pub fn read(file: &[u8], mut buffer: Vec<Step>) -> Result<Sheet, ReadRefused>
    ensures answer { elim result [ Ok s ↦ (sheet_bytes s ≡ file.now) × (sheet_behind s ≡ drop (length (sheet_steps s)) buffer.items) | Err e ↦ (e.buffer ≡ buffer) × RefusedAt e.why e.place file.now (vec_len buffer) ] }
    ensures known { (s : MadeSheet) → sheet_bytes s ≡ file.now → length (sheet_steps s) ≤ vec_len buffer → elim result [ Ok t ↦ SameSheet s t | Err _ ↦ ⊥ ] }
{
    // by a match, since the buffer goes back with the fault
    let checked = match check(file, buffer.len()) {
        Ok(checked) => checked,
        Err(fault) => return Err(ReadRefused {
            why: fault.why,
            place: fault.place,
            buffer,
        }),
    };
    let layout = checked.layout;
    fill_steps(layout.steps(file), layout, &mut buffer);
    let used = layout.used as usize;
    Sheet::make(checked.numerals, buffer, used, checked.outputs).map_err(|refused| ReadRefused {
        why: refused.why,
        place: 0,
        buffer: refused.buffer,
    })
}
