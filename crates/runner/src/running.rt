ghost use Rattle.std.specs.Prelude.{◌≡◌, ℕ, ◌≤◌, map, length, drop, Ok, Err};
ghost use Rattle.sheet.specs.Legal.{LegalSteps};
ghost use Rattle.sheet.specs.Parts.{sheet_steps};
ghost use Rattle.sheet.specs.Values.{StepValues, OutputValues};
ghost use Rattle.runner.specs.Runs.{Ran, run_answer};

use crate::bench::{Bench, write_cell};
use crate::refusal::RunRefusal;
use crate::values::Setting;
use ring::Ring;
use sheet::{Operand, Sheet, Step};

// Each step's value, in the cell of its number.
fn run_steps<R: Ring>(steps: &[Step], setting: &Setting<R>, bench: &mut Bench<R>)
    requires legal { LegalSteps (length setting.now.numerals.now) (length steps.now) steps.now }
    requires room { length steps.now ≤ length bench.old.cells.now }
    ensures steps { StepValues R.ring setting.now.numerals.now (map R.meaning setting.now.measures.now) steps.now (length steps.now) (map R.meaning bench.new.cells.now) }
    ensures behind { drop (length steps.now) bench.new.cells.now ≡ drop (length steps.now) bench.old.cells.now }
{
    for (n, step) in steps.iter().enumerate() {
        let value = setting.step_value(bench, *step);
        bench.write(n, value);
    }
}

// Each output's value, in its place. No `zip` with `iter_mut`: what a loop leaves behind that loan is not proved.
fn run_outputs<R: Ring>(
    operands: &[Operand],
    setting: &Setting<R>,
    bench: &Bench<R>,
    outputs: &mut [R],
)
    requires { length operands.now ≤ length outputs.old }
    ensures { OutputValues R.ring setting.now.numerals.now (map R.meaning setting.now.measures.now) (map R.meaning bench.now.cells.now) operands.now (length operands.now) (map R.meaning outputs.new) }
{
    for (k, operand) in operands.iter().enumerate() {
        let value = setting.operand_value(bench, *operand);
        write_cell(outputs, k, value);
    }
}

// Runs a sheet: each step's value into its cell, and each output into its place.
pub fn run<R: Ring>(
    sheet: &Sheet,
    measures: &[R],
    bench: &mut Bench<R>,
    outputs: &mut [R],
) -> Result<(), RunRefusal>
    ensures answer { result ≡ run_answer (length measures.now) (length (sheet_steps sheet.now)) (length bench.old.cells.now) (length outputs.old) }
    ensures ran { elim result [ Ok _ ↦ Ran R.ring R.meaning sheet.now measures.now bench.old.cells.now bench.new.cells.now outputs.new | Err _ ↦ (bench.new.cells.now ≡ bench.old.cells.now) × (outputs.new ≡ outputs.old) ] }
{
    let steps = sheet.steps();
    if measures.len() != 8 {
        return Err(RunRefusal::Measures);
    }
    if bench.len() < steps.len() {
        return Err(RunRefusal::ShortBench);
    }
    if outputs.len() != 16 {
        return Err(RunRefusal::OutputPlaces);
    }
    let setting = Setting {
        numerals: sheet.numerals(),
        measures,
    };
    run_steps(steps, &setting, bench);
    run_outputs(sheet.outputs(), &setting, bench, outputs);
    Ok(())
}
