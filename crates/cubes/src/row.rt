ghost use Rattle.std.specs.Prelude.{◌≡◌, ◌*◌, ◌≤◌, true, false, Some, None};
ghost use Rattle.algebra.specs.Cubes.{letters, Same, common};
ghost use Rattle.algebra.specs.Rows.{Alike, divides_test, quotient_row};
ghost use Rattle.algebra.specs.Counts.{row_multiplications, all_negative};
ghost use Rattle.cubes.specs.Powers.{power};
ghost use Rattle.cubes.specs.Rows.{Holds, divided_rows, as_row, as_rows, minus};

use crate::Cube;

#[derive(Clone, Copy, PartialEq, Eq, Debug, Default)]
pub enum Sign {
    #[default]
    Plus,
    Minus,
}

impl Sign {
    pub fn is_minus(self) -> bool
        ensures { result ≡ minus self }
    {
        self == Sign::Minus
    }
}

// A cube with a sign.
#[derive(Clone, Copy, PartialEq, Eq, Debug, Default)]
pub struct Row {
    pub cube: Cube,
    pub sign: Sign,
}

impl Row {
    // the greatest cube that divides both rows, signs aside
    pub fn common(self, other: Row) -> Cube
        ensures { Same (power result) (common (power self.cube) (power other.cube)) }
    {
        self.cube.common(other.cube)
    }

    // this row divided by a cube, with its sign, if the cube divides it
    #[tactic(auto, using(crate::proofs::Tests::test_yes, crate::proofs::Tests::test_no))]
    pub fn divide(self, cube: Cube) -> Option<Row>
        ensures { elim result [ Some x ↦ (divides_test (power cube) (power self.cube) ≡ true) × Alike (quotient_row (power cube) (as_row self)) (as_row x) | None ↦ divides_test (power cube) (power self.cube) ≡ false ] }
    {
        self.cube.divide(cube).map(|rest| Row {
            cube: rest,
            sign: self.sign,
        })
    }

    // the multiplications that a product of so many letters takes
    pub fn multiplications(self) -> u32
        ensures is { result ≡ row_multiplications (as_row self) }
        ensures small { result ≤ 255 * letters }
    {
        self.cube.degree().saturating_sub(1)
    }
}

// How many of the rows a cube divides.
pub fn divided_rows(rows: &[Row], cube: Cube) -> usize
    ensures { result ≡ divided_rows (power cube) rows.now }
{
    rows.iter().filter(|row| cube.divides(row.cube)).count()
}

// whether one of the rows has this cube
pub fn holds(rows: &[Row], cube: Cube) -> bool
    ensures yes { result ≡ true → Holds rows.now (power cube) }
    ensures no { result ≡ false → Holds rows.now (power cube) → ⊥ }
{
    rows.iter().any(|row| row.cube.same(cube))
}

// whether every row is negative
pub fn all_minus(rows: &[Row]) -> bool
    ensures { result ≡ all_negative (as_rows rows.now) }
{
    rows.iter().all(|row| row.sign.is_minus())
}
