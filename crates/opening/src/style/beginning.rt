ghost use Rattle.std.specs.Prelude.{◌≡◌, [], length, take};
ghost use Rattle.rewriting.specs.Order.{first_order};
ghost use Rattle.opening.specs.Holding.{Holds};
ghost use Rattle.opening.specs.Styles.{HasNoted};

use crate::style::OpenStyle;
use cubes::Expression;
use sheet::Numerals;
use table::{EXPRESSIONS, FORMULAS, Table};

// The making order at first: the formulas by number.
fn first_order() -> [usize; EXPRESSIONS]
    ensures all { length result ≡ 32 }
    ensures is { take 16 result ≡ first_order }
{
    let mut order = [0; EXPRESSIONS];
    for e in 0..FORMULAS {
        order[e] = e;
    }
    order
}

// A table without rows and numerals.
fn empty_table() -> Table
    ensures { Holds [] result 0 }
{
    Table {
        expressions: [Expression::empty(); EXPRESSIONS],
        numerals: Numerals::none(),
        parts: 0,
        order: first_order(),
    }
}

impl OpenStyle {
    // A style without terms.
    pub fn blank() -> OpenStyle
        ensures { HasNoted [] result }
    {
        OpenStyle {
            table: empty_table(),
            terms: 0,
        }
    }
}
