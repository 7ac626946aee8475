ghost use Rattle.std.specs.Prelude.{◌≡◌, ◌<◌, ◌≤◌, length};
ghost use Rattle.table.specs.Of.{order_of, rows_at, standing_in};
ghost use Rattle.cubes.specs.Expressions.{Rows};

use crate::table::{FORMULAS, Table};
use cubes::Row;

impl Table {
    // How many expressions stand: the formulas and the parts made so far.
    pub fn standing(&self) -> usize
        ensures { result ≡ standing_in self.now }
    {
        FORMULAS + self.parts
    }

    // The rows of an expression; none where there is no such expression. By an `if`: `map_or` would take the empty list
    // first and lend the rows out of a closure.
    pub fn rows(&self, e: usize) -> &[Row]
        ensures { result.now ≡ rows_at self.now e }
    {
        if e < self.expressions.len() {
            self.expressions[e].rows()
        } else {
            &[]
        }
    }

    // The numbers of the expressions that stand, in their making order.
    pub fn order(&self) -> &[usize]
        ensures { result.now ≡ order_of self.now }
    {
        &self.order[..self.standing()]
    }
}
