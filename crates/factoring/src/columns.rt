ghost use Rattle.std.specs.Prelude.{◌≤◌, length};
ghost use Rattle.std.specs.List.{AllZip};
ghost use Rattle.algebra.specs.Rows.{Alike, quotients};
ghost use Rattle.rewriting.specs.Choosing.{named_by};
ghost use Rattle.cubes.specs.Powers.{power};
ghost use Rattle.cubes.specs.Rows.{as_rows};
ghost use Rattle.few.specs.Listed.{listed};

use cubes::{Cube, ROWS, Row};
use few::Few;

// The columns of a kernel of at most eight rows that the binary number `set` names: the first counts 1, the second 2, the third 4.
// The set is halved, as its definition does; only rows that the co-kernel divides count.
pub(crate) fn named_columns(rows: &[Row], cokernel: Cube, set: usize) -> Few<Row, ROWS>
    requires { length rows.now ≤ 8 }
    ensures { AllZip Alike (named_by set (quotients (power cokernel) (as_rows rows.now))) (as_rows (listed result)) }
{
    let mut columns = Few::new();
    let mut number = set;
    for row in rows {
        if let Some(column) = row.divide(cokernel) {
            if number % 2 == 1 {
                columns.push(column).unwrap();
            }
            number /= 2;
        }
    }
    columns
}
