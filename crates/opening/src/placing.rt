ghost use Rattle.std.specs.Prelude.{◌≡◌, ◌≤◌, not, slice_index};
ghost use Rattle.std.specs.Int.Signed.{non_neg};
ghost use Rattle.algebra.specs.Cubes.{Same, product};
ghost use Rattle.cubes.specs.Powers.{power};
ghost use Rattle.cubes.specs.Rows.{minus};
ghost use Rattle.rewriting.specs.Book.{place};
ghost use Rattle.sheet.specs.Numerals.{numerals_list};
ghost use Rattle.opening.specs.Room.{is_new, numeral_cube};

use crate::powers::{MEASURES, TermPowers};
use cubes::{Cube, Sign};
use sheet::Numerals;
use std::array;

// The place of a magnitude among the numerals, behind them all where it is not held.
pub(crate) fn place_of(numerals: &[u16], magnitude: u16) -> usize
    ensures { result ≡ place numerals.now magnitude }
{
    numerals
        .iter()
        .position(|n| *n == magnitude)
        .unwrap_or(numerals.len())
}

// Whether a magnitude is a numeral that is not held: there is none for a magnitude of 1.
pub(crate) fn is_new(numerals: &Numerals, magnitude: u16) -> bool
    ensures { result ≡ is_new (numerals_list numerals.now) magnitude }
{
    magnitude >= 2 && !numerals.as_slice().contains(&magnitude)
}

// The cube of a term: its powers, and a letter for its magnitude, which has the place `at` among the numerals.
pub(crate) fn cube_of(magnitude: u16, at: usize, powers: &TermPowers) -> Cube
    requires { at ≤ 8 }
    ensures { Same (power result) (product (numeral_cube magnitude at) (λ l. slice_index powers.now.each l)) }
{
    let mut all = array::from_fn(|l| powers.of(l));
    if magnitude >= 2 {
        all[MEASURES + at] = 1;
    }
    Cube { powers: all }
}

// The sign of a coefficient; many coefficients have one sign, so it is no `From`.
pub(crate) fn sign_of(coefficient: i64) -> Sign
    ensures { minus result ≡ not (non_neg coefficient) }
{
    if coefficient < 0 {
        Sign::Minus
    } else {
        Sign::Plus
    }
}
