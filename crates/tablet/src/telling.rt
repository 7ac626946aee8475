ghost use Rattle.std.specs.Prelude.{◌≡◌, [], ◌∷◌, ◌++◌, map, length, IfOk, if◌then◌else◌, string_bytes, codes, decimal, OnOk};
ghost use Rattle.sheet.specs.Legal.{is_zero};
ghost use Rattle.sheet.specs.Parts.{sheet_steps, sheet_outputs};
ghost use Rattle.tablet.specs.Telling.{counts_line, out_line, report_text};

use sheet::{Counts, Operand, Sheet};
use spelling::Spelled;
use std::alloc::{AllocError, Global};

// The line of the counts.
fn counts_text(heap: Global, sheet: &Sheet) -> Result<String, AllocError>
    ensures { IfOk result (λ t. string_bytes t ≡ counts_line (sheet_steps sheet.now)) }
{
    let Counts {
        multiplications: mul,
        additions: add,
        negations: neg,
    } = sheet.counts();
    format!(in heap; "sheet {mul} {add} {neg}\n")
}

// Adds the line of one formula.
fn push_out<R: Spelled>(text: &mut String, f: usize, value: R) -> Result<(), AllocError>
    ensures { OnOk result (string_bytes text.new ≡ string_bytes text.old ++ out_line f (R.Spelled.shows value)) }
{
    write!(text, "out {f} ")?;
    value.print(text)?;
    text.push_str("\n")
}

// Adds the line of one formula, unless its output is zero's operand.
fn push_formula<R: Spelled>(
    text: &mut String,
    f: usize,
    operand: Operand,
    value: R,
) -> Result<(), AllocError>
    ensures { OnOk result (string_bytes text.new ≡ string_bytes text.old ++ (if is_zero operand then [] else out_line f (R.Spelled.shows value))) }
{
    if operand.is_zero() {
        return Ok(());
    }
    push_out(text, f, value)
}

// What a run of a sheet gave: the counts, and a line for each formula whose output is not zero's operand.
pub(crate) fn report<R: Spelled>(
    heap: Global,
    sheet: &Sheet,
    values: &[R],
) -> Result<String, AllocError>
    requires { length values.now ≡ 16 }
    ensures { IfOk result (λ t. string_bytes t ≡ report_text (sheet_steps sheet.now) (sheet_outputs sheet.now) (map R.Spelled.shows values.now)) }
{
    let mut text = counts_text(heap, sheet)?;
    for (f, (operand, value)) in sheet.outputs().iter().zip(values).enumerate() {
        push_formula(&mut text, f, *operand, *value)?;
    }
    Ok(text)
}
