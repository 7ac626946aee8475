ghost use Rattle.std.specs.Prelude.{◌≡◌};
ghost use Rattle.algebra.specs.Rows.{degree as degree_of};
ghost use Rattle.cubes.specs.Powers.{power};

use cubes::Row;

// A signed cube in the table of names, with its degree. The degree stands first, since it tells most apart at once.
#[derive(Clone, Copy, PartialEq, Eq)]
pub(crate) struct Entry {
    pub degree: u32,
    pub row: Row,
    ghost counted: { degree ≡ degree_of (power row.cube) },
}
