ghost use Rattle.std.specs.Prelude.{◌≡◌, ◌<◌, ◌≤◌, true, false};
ghost use Rattle.rewriting.specs.Sharing.{Ahead};
ghost use Rattle.sharing.specs.Pairs.{Better, spot};

use cubes::Cube;

// A row of a table: its expression, and its place there. Places are in the order of their expressions, and then of their rows.
#[derive(Clone, Copy, PartialEq, Eq, PartialOrd, Ord)]
pub struct Place {
    pub expression: usize,
    pub row: usize,
}

// Two rows, their greatest common cube, how many rows of the table it divides, and the multiplications that sharing it saves.
#[derive(Clone, Copy)]
pub struct Pair {
    pub first: Place,
    pub second: Place,
    pub cube: Cube,
    pub rows: usize,
    pub saved: usize,
}

impl Place {
    // whether this row comes before the other: by expression, then by row
    pub(crate) fn ahead(self, other: Place) -> bool
        ensures yes { result ≡ true → Ahead (spot self) (spot other) }
        ensures no { result ≡ false → Ahead (spot self) (spot other) → ⊥ }
    {
        self < other
    }
}

// the pair that saves more, the one met first among equals
pub(crate) fn better(best: Option<Pair>, next: Pair) -> Pair
    ensures { Better best next result }
{
    match best {
        Some(x) if x.saved >= next.saved => x,
        _ => next,
    }
}
