ghost use Rattle.std.specs.Prelude.{◌≡◌, ◌<◌, ◌++◌, length, IfOk};
ghost use Rattle.few.specs.Listed.{listed};
ghost use Rattle.cubes.specs.Powers.{power};
ghost use Rattle.cubes.specs.Rows.{as_row};
ghost use Rattle.table.specs.Of.{style_of};
ghost use Rattle.kernels.specs.Named.{as_kernel, as_kernels};
ghost use Rattle.dealing.specs.Chosen.{Chooses};
ghost use Rattle.dealing.specs.Dealing.{AddsCard, AddsColumn, DealtAll, one_or_none};
ghost use Rattle.dealing.specs.Naming.{named_rows};

use crate::names::Names;
use choosing::{Card, Choice, Column, Columns, choose};
use cubes::{Cube, ROWS, Row};
use kernels::Kernel;
use std::alloc::{AllocError, Global};
use table::Table;

// The column of a row in a kernel with this co-kernel; none, if that does not divide the row.
fn column_of(
    names: &mut Names,
    row: &Row,
    place: u8,
    cokernel: Cube,
) -> Result<Option<Column>, AllocError>
    ensures { IfOk result (λ o. AddsColumn (named_rows names.old) (power cokernel) place (as_row row.now) o (named_rows names.new)) }
{
    let Some(quotient) = row.divide(cokernel) else {
        return Ok(None);
    };
    let name = names.name_of(quotient)?;
    let degree = quotient.cube.degree() as u16;
    Ok(Some(Column {
        name,
        row: place,
        degree,
    }))
}

// Appends a column, if there is one.
fn append(columns: &mut Columns, column: Option<Column>)
    requires { length (listed columns.old) < 8 }
    ensures { listed columns.new ≡ listed columns.old ++ one_or_none column }
{
    if let Some(c) = column {
        columns.push(c).unwrap();
    }
}

// The card of a kernel: the columns of the rows that the co-kernel divides, in their order.
fn card_of(names: &mut Names, table: &Table, kernel: &Kernel) -> Result<Card, AllocError>
    ensures { IfOk result (λ x. AddsCard (named_rows names.old) (style_of table.now) (as_kernel kernel.now) x (named_rows names.new)) }
{
    let rows = table.rows(kernel.expression);
    let mut columns = Columns::new();
    for (k, row) in rows.iter().enumerate() {
        let place = (ROWS * kernel.expression + k) as u8;
        let column = column_of(names, row, place, kernel.cokernel)?;
        append(&mut columns, column);
    }
    let degree = kernel.cokernel.degree() as u16;
    Ok(Card { degree, columns })
}

// The cards of the kernels, in their order.
fn deal(table: &Table, kernels: &[Kernel], heap: Global) -> Result<Vec<Card>, AllocError>
    ensures { IfOk result (λ v. DealtAll (style_of table.now) (as_kernels kernels.now) v.items) }
{
    let mut names = Names::new(heap);
    let mut cards = Vec::new(heap);
    for kernel in kernels {
        let card = card_of(&mut names, table, kernel)?;
        cards.push(card)?;
    }
    Ok(cards)
}

// The column set that saves most among the kernels, and the first of those; none, if no set saves anything.
pub fn best_set(
    table: &Table,
    kernels: &[Kernel],
    weight: u32,
    heap: Global,
) -> Result<Option<Choice>, AllocError>
    ensures { IfOk result (λ o. Chooses weight (style_of table.now) (as_kernels kernels.now) o) }
{
    let cards = deal(table, kernels, heap)?;
    choose(cards.as_slice(), weight, heap)
}
