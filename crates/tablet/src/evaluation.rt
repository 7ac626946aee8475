ghost use Rattle.std.specs.Prelude.{◌≡◌, length};
ghost use Rattle.tablet.specs.Evaluating.{RanValues, Evaluated};

use crate::error::EvaluationError;
use crate::telling::report;
use ring::Ring;
use runner::{Bench, run};
use sheet::{Sheet, Step};
use sheet_file::read;
use spelling::Spelled;
use std::alloc::Global;

// Runs a sheet in cells of its own: the outputs.
pub fn run_sheet<R: Ring>(
    heap: Global,
    sheet: &Sheet,
    measures: &[R],
) -> Result<Vec<R>, EvaluationError>
    ensures { RanValues R.ring R.meaning sheet.now measures.now result }
{
    let mut cells = vec![in heap; R::zero(); sheet.steps().len()]?;
    let mut outputs = vec![in heap; R::zero(); 16]?;
    let mut bench = Bench::over(&mut cells);
    run(sheet, measures, &mut bench, &mut outputs)?;
    Ok(outputs)
}

// Reads a file, runs it at the measures, and tells its counts and its formulas' values.
pub fn evaluate<R: Spelled>(
    heap: Global,
    file: &[u8],
    measures: &[R],
) -> Result<String, EvaluationError>
    ensures { Evaluated R.Ring.ring R.Ring.meaning R.Spelled.shows file.now measures.now result }
{
    let buffer = vec![in heap; Step::default(); 2000]?;
    let sheet = read(file, buffer)?;
    let values = run_sheet(heap, &sheet, measures)?;
    Ok(report(heap, &sheet, &values)?)
}
