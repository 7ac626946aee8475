ghost use Rattle.std.specs.Prelude.{◌<◌, ◌≤◌, length};
ghost use Rattle.cubes.specs.Powers.{power};
ghost use Rattle.cubes.specs.Rows.{Holds};
ghost use Rattle.rewriting.specs.Book.{with_numeral};
ghost use Rattle.sheet.specs.Numerals.{numerals_list};
ghost use Rattle.table.specs.Of.{rows_at};
ghost use Rattle.opening.specs.Room.{RowAdded, NumeralsSet};

use crate::placing::is_new;
use cubes::Row;
use table::Table;

// One row more for a formula that has room for it.
pub(crate) fn add_row(table: &mut Table, formula: usize, row: Row)
    requires formula { formula < 16 }
    requires room { length (rows_at table.old formula) < 8 }
    requires fresh { Holds (rows_at table.old formula) (power row.cube) → ⊥ }
    ensures { RowAdded table.old formula row table.new }
{
    // a copy takes the row: no proof is made of a push into the element where it stands
    let mut expression = table.expressions[formula];
    expression.push(row).unwrap();
    table.expressions[formula] = expression;
}

// Holds the magnitude as a numeral, if it is a new one.
pub(crate) fn hold_numeral(table: &mut Table, magnitude: u16)
    requires { length (with_numeral (numerals_list table.old.numerals) magnitude) ≤ 8 }
    ensures { NumeralsSet table.old (with_numeral (numerals_list table.old.numerals) magnitude) table.new }
{
    if is_new(&table.numerals, magnitude) {
        table.numerals.push(magnitude).unwrap();
    }
}
