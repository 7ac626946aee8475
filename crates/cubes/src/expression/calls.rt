ghost use Rattle.std.specs.Prelude.{◌≡◌, [], length, Ok, Err};
ghost use Rattle.cubes.specs.Expressions.{rows_of, Rows, Added, Refuses};
ghost use Rattle.algebra.specs.Counts.{multiplications, additions, negations};
ghost use Rattle.cubes.specs.Rows.{as_rows};

use crate::row::{all_minus, holds};
use crate::{Expression, ROWS, Refused, Row};
use few::Few;

impl Expression {
    // no rows: the sum 0
    pub fn empty() -> Expression
        ensures { rows_of result ≡ [] }
    {
        Expression { rows: Few::new() }
    }

    // the rows, in the order in which they were added
    pub fn rows(&self) -> &[Row]
        ensures { Rows self.now result.now }
    {
        self.rows.as_slice()
    }

    pub fn len(&self) -> usize
        ensures { result ≡ length (rows_of self.now) }
    {
        self.rows().len()
    }

    // adds a row, unless there is no place or a row with its cube
    pub fn push(&mut self, row: Row) -> Result<(), Refused>
        ensures { elim result [ Ok _ ↦ Added (rows_of self.old) row (rows_of self.new) | Err why ↦ Refuses why (rows_of self.old) row (rows_of self.new) ] }
    {
        if self.len() < ROWS && holds(self.rows(), row.cube) {
            return Err(Refused::Double);
        }
        self.rows.push(row).map_err(|_| Refused::Full)
    }

    // multiplications of all rows
    pub fn multiplications(&self) -> u32
        ensures { result ≡ multiplications (as_rows (rows_of self.now)) }
    {
        self.rows().iter().map(|row| row.multiplications()).sum()
    }

    // additions and subtractions between the rows
    pub fn additions(&self) -> u32
        ensures { result ≡ additions (as_rows (rows_of self.now)) }
    {
        (self.len() as u32).saturating_sub(1)
    }

    // one where there are rows and all are negative
    pub fn negations(&self) -> u32
        ensures { result ≡ negations (as_rows (rows_of self.now)) }
    {
        u32::from(self.len() > 0 && all_minus(self.rows()))
    }
}
