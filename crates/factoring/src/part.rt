ghost use Rattle.std.specs.Prelude.{◌≡◌, map};
ghost use Rattle.algebra.specs.Counts.{all_negative};
ghost use Rattle.cubes.specs.Rows.{as_rows, minus};
ghost use Rattle.few.specs.Listed.{listed};
ghost use Rattle.rewriting.specs.Factor.{part_rows, positive};

use cubes::{ROWS, Row, Sign, all_minus};
use few::Few;

// The sign of the rows that stand for the columns: negative where all columns are.
pub(crate) fn common_sign(columns: &[Row]) -> Sign
    ensures { minus result ≡ all_negative (as_rows columns.now) }
{
    if all_minus(columns) {
        Sign::Minus
    } else {
        Sign::Plus
    }
}

// the rows without their signs, put one by one: a list kept in place cannot be collected
fn positive_rows(columns: &Few<Row, ROWS>) -> Few<Row, ROWS>
    ensures { as_rows (listed result) ≡ map positive (as_rows (listed columns.now)) }
{
    let mut rows = Few::new();
    for row in columns.as_slice() {
        let row = Row {
            cube: row.cube,
            sign: Sign::Plus,
        };
        rows.push(row).unwrap();
    }
    rows
}

// The rows of the part: the columns, held positive where all are negative.
pub(crate) fn rows_of_part(columns: &Few<Row, ROWS>) -> Few<Row, ROWS>
    ensures { as_rows (listed result) ≡ part_rows (as_rows (listed columns.now)) }
{
    match common_sign(columns.as_slice()) {
        Sign::Minus => positive_rows(columns),
        Sign::Plus => *columns,
    }
}
