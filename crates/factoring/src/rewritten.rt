ghost use Rattle.std.specs.Prelude.{◌≡◌, ◌++◌, map, IfOk, Some, None};
ghost use Rattle.std.specs.List.{AllZip};
ghost use Rattle.algebra.specs.Rows.{Alike};
ghost use Rattle.cubes.specs.Expressions.{rows_of};
ghost use Rattle.cubes.specs.Powers.{power};
ghost use Rattle.cubes.specs.Rows.{as_rows, minus};
ghost use Rattle.rewriting.specs.Factor.{covered, has, taken_in, without};
ghost use Rattle.table.specs.Of.{rows_at};
ghost use Rattle.factoring.specs.Rewrites.{AllAnew, OneUnmade, Overflows, Unmade, anew, part_row};
ghost use Rattle.factoring.specs.Takens.{as_takens};

use crate::taken::TakenKernel;
use crate::taking::is_covered;
use cubes::{Expression, Row};
use std::alloc::{AllocError, Global};
use table::Table;

// The rows of expression e that no taken kernel covers.
fn rows_left(
    rows: &[Row],
    e: usize,
    taken: &[TakenKernel],
    heap: Global,
) -> Result<Vec<Row>, AllocError>
    ensures { IfOk result (λ v. as_rows v.items ≡ without (has (covered (taken_in e (as_takens taken.now)))) (as_rows rows.now)) }
{
    let mut rest = Vec::new(heap);
    for (k, row) in rows.iter().enumerate() {
        if !is_covered(taken, e, k) {
            rest.push(*row)?;
        }
    }
    Ok(rest)
}

// Appends co-kernel times part, with the part's sign, for each taken kernel of expression e, unless a product is too high.
fn with_products(
    rows: Vec<Row>,
    e: usize,
    taken: &[TakenKernel],
    part: Row,
) -> Result<Option<Vec<Row>>, AllocError>
    ensures { IfOk result (λ o. elim o [ Some v ↦ AllZip Alike (as_rows rows.items ++ map (part_row (minus part.sign) (power part.cube)) (taken_in e (as_takens taken.now))) (as_rows v.items) | None ↦ Overflows (as_takens taken.now) (power part.cube) ]) }
{
    let Row { cube: letter, sign } = part;
    let mut rows = rows;
    for t in taken {
        if t.expression == e {
            let Some(cube) = t.cokernel.multiply(letter) else {
                return Ok(None);
            };
            rows.push(Row { cube, sign })?;
        }
    }
    Ok(Some(rows))
}

// Expression e anew: the covered rows go, the rest close up, and co-kernel times part is appended.
fn rewrite(
    table: &Table,
    e: usize,
    taken: &[TakenKernel],
    part: Row,
    heap: Global,
) -> Result<Option<Expression>, AllocError>
    ensures { IfOk result (λ o. elim o [ Some x ↦ AllZip Alike (anew (minus part.sign) (power part.cube) (taken_in e (as_takens taken.now)) (as_rows (rows_at table.now e))) (as_rows (rows_of x)) | None ↦ Unmade (minus part.sign) (power part.cube) (as_takens taken.now) e (as_rows (rows_at table.now e)) ]) }
{
    let rest = rows_left(table.rows(e), e, taken, heap)?;
    let Some(rows) = with_products(rest, e, taken, part)? else {
        return Ok(None);
    };
    Ok(Expression::of(rows.as_slice()).ok())
}

// Every expression that stands anew; the numerals, the parts and the order stay.
pub(crate) fn rewrite_all(
    table: &Table,
    taken: &[TakenKernel],
    part: Row,
    heap: Global,
) -> Result<Option<Table>, AllocError>
    ensures { IfOk result (λ o. elim o [ Some x ↦ AllAnew (minus part.sign) (power part.cube) (as_takens taken.now) table.now x | None ↦ OneUnmade (minus part.sign) (power part.cube) (as_takens taken.now) table.now ]) }
{
    let mut expressions = table.expressions;
    // an expression is named by its number, which its kernels bear
    for e in 0..table.standing() {
        let Some(expression) = rewrite(table, e, taken, part, heap)? else {
            return Ok(None);
        };
        expressions[e] = expression;
    }
    Ok(Some(Table {
        expressions,
        numerals: table.numerals,
        parts: table.parts,
        order: table.order,
    }))
}
