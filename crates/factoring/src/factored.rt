ghost use Rattle.std.specs.Prelude.{IfOk, Some, None};
ghost use Rattle.cubes.specs.Rows.{as_rows};
ghost use Rattle.factoring.specs.Factoring.{Factors, TakesOut, Unfactored, Untaken};
ghost use Rattle.factoring.specs.Takens.{as_takens};
ghost use Rattle.few.specs.Listed.{listed};

use crate::columns::named_columns;
use crate::order::first_source;
use crate::part::{common_sign, rows_of_part};
use crate::rewritten::rewrite_all;
use crate::taken::TakenKernel;
use crate::taking::take_all;
use cubes::{Cube, Expression, ROWS, Row};
use few::Few;
use kernels::Kernel;
use std::alloc::{AllocError, Global};
use table::Table;

// The table with one part more, how many kernels it was taken from, and how many columns it has.
#[derive(Clone, Copy)]
pub struct Factored {
    pub table: Table,
    pub rows: usize,
    pub columns: usize,
}

// The table with the columns as one part more, and the taken kernels replaced.
fn factor(
    table: &Table,
    columns: &Few<Row, ROWS>,
    taken: &[TakenKernel],
    heap: Global,
) -> Result<Option<Table>, AllocError>
    ensures { IfOk result (λ o. elim o [ Some x ↦ Factors table.now (as_rows (listed columns.now)) (as_takens taken.now) x | None ↦ Unfactored table.now (as_rows (listed columns.now)) (as_takens taken.now) ]) }
{
    let Some(letter) = Cube::letter(table.standing()) else {
        return Ok(None);
    };
    let row = Row {
        cube: letter,
        sign: common_sign(columns.as_slice()),
    };
    let Some(anew) = rewrite_all(table, taken, row, heap)? else {
        return Ok(None);
    };
    let Ok(part) = Expression::of(rows_of_part(columns).as_slice()) else {
        return Ok(None);
    };
    let at = first_source(anew.order(), taken).unwrap_or(anew.standing());
    Ok(anew.with_part_at(part, at))
}

// Takes the columns that the binary number `set` names of the kernel at a place through the list of kernels, and makes them
// a part. There is none where there is no such kernel, no part is left, or an expression would have too many rows, two rows
// with the same cube, or a power that is no byte.
pub fn take_out(
    table: &Table,
    kernels: &[Kernel],
    place: usize,
    set: usize,
    heap: Global,
) -> Result<Option<Factored>, AllocError>
    ensures { IfOk result (λ o. elim o [ Some f ↦ TakesOut table.now kernels.now place set f | None ↦ Untaken table.now kernels.now place set ]) }
{
    let Some(kernel) = kernels.get(place) else {
        return Ok(None);
    };
    let columns = named_columns(table.rows(kernel.expression), kernel.cokernel, set);
    let taken = take_all(table, kernels, &columns, heap)?;
    let Some(next) = factor(table, &columns, taken.as_slice(), heap)? else {
        return Ok(None);
    };
    Ok(Some(Factored {
        table: next,
        rows: taken.len(),
        columns: columns.len(),
    }))
}
