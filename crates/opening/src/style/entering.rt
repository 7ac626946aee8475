ghost use Rattle.cubes.specs.Powers.{power};
ghost use Rattle.sheet.specs.Numerals.{numerals_list};
ghost use Rattle.table.specs.Of.{rows_at};
ghost use Rattle.opening.specs.Holding.{term_of};
ghost use Rattle.opening.specs.Room.{RoomChecked};
ghost use Rattle.opening.specs.Styles.{Entered, table_of, terms_of};

use crate::checks::check;
use crate::growing::{add_row, hold_numeral};
use crate::placing::{cube_of, is_new, place_of, sign_of};
use crate::refusal::EnterRefusal;
use crate::style::OpenStyle;
use cubes::{Cube, ROWS, Row, holds};

// How many terms a style has at most.
const TERMS: usize = 80;

// How many numerals a style has at most.
const NUMERALS: u8 = 8;

impl OpenStyle {
    // The checks that what is held decides, in their order.
    fn check_room(&self, formula: usize, cube: Cube, magnitude: u16) -> Result<(), EnterRefusal>
        ensures { RoomChecked result (rows_at (table_of self.now) formula) (power cube) (terms_of self.now) (numerals_list (table_of self.now).numerals) magnitude }
    {
        let rows = self.table.rows(formula);
        if holds(rows, cube) {
            return Err(EnterRefusal::DoubleCube);
        }
        if rows.len() >= ROWS {
            return Err(EnterRefusal::FullFormula);
        }
        if self.terms >= TERMS {
            return Err(EnterRefusal::FullStyle);
        }
        if is_new(&self.table.numerals, magnitude) && self.table.numerals.count() >= NUMERALS {
            return Err(EnterRefusal::NinthNumeral);
        }
        Ok(())
    }

    // Takes a term into a formula, or says why not and changes nothing.
    pub fn enter(
        &mut self,
        formula: usize,
        coefficient: i64,
        powers: &[u64],
    ) -> Result<(), EnterRefusal>
        ensures { Entered self.old (term_of formula coefficient powers.now) result self.new }
    {
        let (magnitude, powers) = check(formula, coefficient, powers)?;
        let place = place_of(self.table.numerals.as_slice(), magnitude);
        let cube = cube_of(magnitude, place, &powers);
        self.check_room(formula, cube, magnitude)?;
        let row = Row {
            cube,
            sign: sign_of(coefficient),
        };
        add_row(&mut self.table, formula, row);
        hold_numeral(&mut self.table, magnitude);
        self.terms += 1;
        Ok(())
    }
}
