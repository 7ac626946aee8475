ghost use Rattle.std.specs.Prelude.{◌+◌, ◌<◌, Some, None};
ghost use Rattle.rewriting.specs.Sharing.{NoPair, Sharing, Stands};
ghost use Rattle.rewriting.specs.Styles.{standing};
ghost use Rattle.sharing.specs.Pairs.{Best, KnownSoFar, Weighed, at, spot};
ghost use Rattle.table.specs.Of.{style_of};

use crate::count::rows_divided;
use crate::pair::{Pair, Place, better};
use table::Table;

// The least degree of a cube that is shared.
const LEAST_DEGREE: usize = 2;

// A place stands in a table or not, so no type of places says that it does: each step of the search asks it.

// What sharing the greatest common cube of two rows saves; nothing unless the first comes before the second and the cube has degree two or more.
fn weigh(table: &Table, first: Place, second: Place) -> Option<Pair>
    requires first { Stands (style_of table.now) (spot first) }
    requires second { Stands (style_of table.now) (spot second) }
    ensures { elim result [ Some x ↦ Weighed (style_of table.now) first second x | None ↦ (Sharing (style_of table.now) (spot first) (spot second) → ⊥) ] }
{
    if !first.ahead(second) {
        return None;
    }
    let one = table.rows(first.expression)[first.row];
    let other = table.rows(second.expression)[second.row];
    let cube = one.common(other);
    let degree = cube.degree() as usize;
    if degree < LEAST_DEGREE {
        return None;
    }
    let rows = rows_divided(table, cube);
    Some(Pair {
        first,
        second,
        cube,
        rows,
        saved: rows.saturating_sub(1) * (degree - 1),
    })
}

// the best so far, with the pairs of a first row and the rows of expression e
fn best_second_in(table: &Table, first: Place, e: usize, best: Option<Pair>) -> Option<Pair>
    requires first { Stands (style_of table.now) (spot first) }
    requires second { e < standing (style_of table.now) }
    requires before { KnownSoFar (style_of table.now) (spot first) (at e 0) best }
    ensures { KnownSoFar (style_of table.now) (spot first) (at (e + 1) 0) result }
{
    let mut best = best;
    // a place is named by its numbers, and the rows are read where a pair is weighed
    for row in 0..table.rows(e).len() {
        let second = Place { expression: e, row };
        if let Some(x) = weigh(table, first, second) {
            best = Some(better(best, x));
        }
    }
    best
}

// the best so far, with all pairs of a first row
fn best_second(table: &Table, first: Place, best: Option<Pair>) -> Option<Pair>
    requires first { Stands (style_of table.now) (spot first) }
    requires before { KnownSoFar (style_of table.now) (spot first) (at 0 0) best }
    ensures { KnownSoFar (style_of table.now) (at first.expression (first.row + 1)) (at 0 0) result }
{
    let mut best = best;
    // the pairs begin with the first row's own expression, and a place holds the number
    for e in first.expression..table.standing() {
        best = best_second_in(table, first, e, best);
    }
    best
}

// the best so far, with all pairs whose first row is one of expression e
fn best_first_in(table: &Table, e: usize, best: Option<Pair>) -> Option<Pair>
    requires first { e < standing (style_of table.now) }
    requires before { KnownSoFar (style_of table.now) (at e 0) (at 0 0) best }
    ensures { KnownSoFar (style_of table.now) (at (e + 1) 0) (at 0 0) result }
{
    let mut best = best;
    // a place is named by its numbers
    for row in 0..table.rows(e).len() {
        best = best_second(table, Place { expression: e, row }, best);
    }
    best
}

// The two rows whose greatest common cube, of degree two or more, saves most when it is shared: among equals those of the earliest
// first row, then second row. None where no two rows have such a cube.
pub fn best_cube(table: &Table) -> Option<Pair>
    ensures { elim result [ Some x ↦ Best (style_of table.now) x | None ↦ NoPair (style_of table.now) ] }
{
    let mut best = None;
    // an expression is named by its number, which the places of its rows hold
    for e in 0..table.standing() {
        best = best_first_in(table, e, best);
    }
    best
}
