ghost use Rattle.std.specs.Prelude.{◌≡◌, true, false, IfOk, Some, None, OnOk};
ghost use Rattle.cubes.specs.Powers.{power};
ghost use Rattle.cubes.specs.Rows.{as_row, as_rows};
ghost use Rattle.rewriting.specs.Factor.{covered, has, product_row, taken_in};
ghost use Rattle.rewriting.specs.Taking.{alike, found, spot, spots, taken_by};
ghost use Rattle.table.specs.Of.{style_of};
ghost use Rattle.kernels.specs.Named.{as_kernel, as_kernels};
ghost use Rattle.factoring.specs.Takens.{all_open, as_takens, looked, open_at};
ghost use Rattle.few.specs.Listed.{listed};

use crate::taken::TakenKernel;
use cubes::{Cube, ROWS, Row};
use few::Few;
use kernels::Kernel;
use std::alloc::{AllocError, Global};
use table::Table;

// whether the row is the co-kernel times the column, sign for sign
fn is_product(row: Row, cokernel: Cube, column: Row) -> bool
    ensures { result ≡ alike (as_row row) (product_row (power cokernel) (as_row column)) }
{
    row.sign == column.sign && row.divide(cokernel) == Some(column)
}

// the place of the first row that is the co-kernel times the column
fn place_behind(rows: &[Row], cokernel: Cube, column: Row) -> Option<usize>
    ensures { elim result [ Some k ↦ (found (as_rows rows.now) (product_row (power cokernel) (as_row column)) ≡ true) × (k ≡ spot (as_rows rows.now) (product_row (power cokernel) (as_row column))) | None ↦ found (as_rows rows.now) (product_row (power cokernel) (as_row column)) ≡ false ] }
{
    rows.iter()
        .position(|row| is_product(*row, cokernel, column))
}

// whether a taken kernel covers the row of expression e at the place
pub(crate) fn is_covered(taken: &[TakenKernel], e: usize, place: usize) -> bool
    ensures { result ≡ has (covered (taken_in e (as_takens taken.now))) place }
{
    taken.iter().any(|t| t.covers(e, place))
}

// the place of the row behind a column of a kernel, unless it is covered; the contract has a case for each branch
fn open_place(rows: &[Row], kernel: Kernel, column: Row, taken: &[TakenKernel]) -> Option<usize>
    ensures { elim result [ Some k ↦ (open_at (as_rows rows.now) (power kernel.cokernel) (covered (taken_in kernel.expression (as_takens taken.now))) (as_row column) ≡ true) × (k ≡ spot (as_rows rows.now) (product_row (power kernel.cokernel) (as_row column))) | None ↦ open_at (as_rows rows.now) (power kernel.cokernel) (covered (taken_in kernel.expression (as_takens taken.now))) (as_row column) ≡ false ] }
{
    let k = place_behind(rows, kernel.cokernel, column)?;
    if is_covered(taken, kernel.expression, k) {
        None
    } else {
        Some(k)
    }
}

// The places of the rows behind all columns of a kernel, unless one is missing or covered.
fn places_behind(
    rows: &[Row],
    kernel: Kernel,
    columns: &Few<Row, ROWS>,
    taken: &[TakenKernel],
) -> Option<Few<usize, ROWS>>
    ensures { elim result [ Some ps ↦ (all_open (as_rows rows.now) (power kernel.cokernel) (covered (taken_in kernel.expression (as_takens taken.now))) (as_rows (listed columns.now)) ≡ true) × (listed ps ≡ spots (as_rows rows.now) (power kernel.cokernel) (as_rows (listed columns.now))) | None ↦ all_open (as_rows rows.now) (power kernel.cokernel) (covered (taken_in kernel.expression (as_takens taken.now))) (as_rows (listed columns.now)) ≡ false ] }
{
    let mut places = Few::new();
    for column in columns.as_slice() {
        let k = open_place(rows, kernel, *column, taken)?;
        places.push(k).unwrap();
    }
    Some(places)
}

// Takes the kernel, if it has every column and none of the rows behind them is covered.
fn look(
    table: &Table,
    columns: &Few<Row, ROWS>,
    taken: &mut Vec<TakenKernel>,
    kernel: Kernel,
) -> Result<(), AllocError>
    ensures { OnOk result (as_takens taken.new.items ≡ looked (style_of table.now) (as_rows (listed columns.now)) (as_takens taken.old.items) (as_kernel kernel)) }
{
    let rows = table.rows(kernel.expression);
    if let Some(places) = places_behind(rows, kernel, columns, taken.as_slice()) {
        taken.push(TakenKernel {
            expression: kernel.expression,
            cokernel: kernel.cokernel,
            places,
        })?;
    }
    Ok(())
}

// The kernels that the columns take, through the list in order.
pub(crate) fn take_all(
    table: &Table,
    kernels: &[Kernel],
    columns: &Few<Row, ROWS>,
    heap: Global,
) -> Result<Vec<TakenKernel>, AllocError>
    ensures { IfOk result (λ v. as_takens v.items ≡ taken_by (style_of table.now) (as_rows (listed columns.now)) (as_kernels kernels.now)) }
{
    let mut taken = Vec::new(heap);
    for kernel in kernels {
        look(table, columns, &mut taken, *kernel)?;
    }
    Ok(taken)
}
