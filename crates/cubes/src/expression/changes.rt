ghost use Rattle.std.specs.Prelude.{◌≡◌, ◌<◌, true, false, Some, None, Ok, Err};
ghost use Rattle.algebra.specs.Cubes.{letters};
ghost use Rattle.algebra.specs.Rows.{Alike, divides_test};
ghost use Rattle.cubes.specs.Expressions.{rows_of, Unfit};
ghost use Rattle.cubes.specs.Powers.{power};
ghost use Rattle.cubes.specs.Rows.{as_row};
ghost use Rattle.cubes.specs.Shares.{Lacks, Shared, Unshared, shared_row};

use crate::{Cube, Expression, LETTERS, Refused, Row};

impl Expression {
    // the sum of these rows, unless they are too many or two have the same cube
    pub fn of(rows: &[Row]) -> Result<Expression, Refused>
        ensures { elim result [ Ok e ↦ rows_of e ≡ rows.now | Err why ↦ Unfit why rows.now ] }
    {
        let mut e = Expression::empty();
        for row in rows {
            e.push(*row)?;
        }
        Ok(e)
    }

    // Divides each row that the cube divides once by it, and multiplies it by the letter; answers how many rows these are.
    // None where there is no such letter or a row has it already: then nothing is changed.
    pub fn share(&mut self, cube: Cube, letter: usize) -> Option<usize>
        ensures { elim result [ Some n ↦ Shared letter (power cube) (rows_of self.old) (rows_of self.new) n | None ↦ Unshared letter (rows_of self.old) (rows_of self.new) ] }
    {
        if letter >= LETTERS || !lacks(self.rows(), letter) {
            return None;
        }
        let mut rows = self.rows;
        // a row is changed by itself and put back by its place: `Few` lends no `&mut` to its items
        let mut n = 0;
        for (k, row) in self.rows().iter().enumerate() {
            let mut row = *row;
            if divide(&mut row, cube, letter) {
                n += 1;
            }
            rows.set(k, row).unwrap();
        }
        self.rows = rows;
        Some(n)
    }
}

// whether no row has the letter
fn lacks(rows: &[Row], letter: usize) -> bool
    requires { letter < letters }
    ensures yes { result ≡ true → Lacks letter rows.now }
    ensures no { result ≡ false → Lacks letter rows.now → ⊥ }
{
    rows.iter().all(|row| row.cube.powers[letter] == 0)
}

// Divides a row without the letter once by the cube, if that divides it, and multiplies it by the letter; answers whether it did.
// It answers a flag, since the row itself is lent and changed in place (a rule of the project).
fn divide(row: &mut Row, cube: Cube, letter: usize) -> bool
    requires known { letter < letters }
    requires fresh { power row.old.cube letter ≡ 0 }
    ensures row { Alike (as_row row.new) (shared_row letter (power cube) (as_row row.old)) }
    ensures told { result ≡ divides_test (power cube) (power row.old.cube) }
{
    match row.cube.divide(cube) {
        Some(mut rest) => {
            rest.powers[letter] = 1;
            row.cube = rest;
            true
        }
        None => false,
    }
}
