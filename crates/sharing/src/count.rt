ghost use Rattle.std.specs.Prelude.{◌≡◌, ◌*◌, ◌≤◌};
ghost use Rattle.cubes.specs.Powers.{power};
ghost use Rattle.rewriting.specs.Share.{divided};
ghost use Rattle.rewriting.specs.Styles.{over};
ghost use Rattle.table.specs.Of.{style_of};

use cubes::{Cube, divided_rows};
use table::Table;

// How many rows of all expressions that stand a cube divides; by a `for`, whose invariant bounds the sum (eight rows for each).
pub(crate) fn rows_divided(table: &Table, cube: Cube) -> usize
    ensures is { result ≡ over (divided (power cube)) (style_of table.now) }
    ensures small { result ≤ 8 * 32 }
{
    let mut n = 0;
    for x in &table.expressions[..table.standing()] {
        n += divided_rows(x.rows(), cube);
    }
    n
}
