ghost use Rattle.cubes.specs.Rows.{Apart};
ghost use Rattle.few.specs.Listed.{listed};

use crate::Row;
use few::Few;

mod calls;
mod changes;

// How many rows an expression has at most. The definitions have the same number as `most_rows`.
pub const ROWS: usize = 8;

// Why a row is not taken into an expression.
#[derive(Clone, Copy, PartialEq, Eq, Debug)]
pub enum Refused {
    // there is no place left
    Full,
    // a row with the same cube is there
    Double,
}

// A sum of rows: a few of them, no two with the same cube, signs aside.
#[derive(Clone, Copy)]
pub struct Expression {
    rows: Few<Row, ROWS>,
    ghost apart: { Apart (listed rows) },
}
