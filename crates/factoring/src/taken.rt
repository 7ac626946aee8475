ghost use Rattle.std.specs.Prelude.{◌≡◌, ◌&&◌, nat_eq};
ghost use Rattle.std.specs.List.{list_any};
ghost use Rattle.few.specs.Listed.{listed};

use cubes::{Cube, ROWS};
use few::Few;

// The kernels taken are a plain slice, and a function that asks it for one expression is told the number: a struct of both would be
// made for each expression anew, and the rows, the part or the place would still come beside it.

// A kernel that is taken: its expression, its co-kernel, and the place of the row behind each column.
#[derive(Clone, Copy)]
pub(crate) struct TakenKernel {
    pub expression: usize,
    pub cokernel: Cube,
    pub places: Few<usize, ROWS>,
}

impl TakenKernel {
    // whether it covers the row of expression e at the place
    pub(crate) fn covers(&self, e: usize, place: usize) -> bool
        ensures { result ≡ (nat_eq self.now.expression e && list_any (λ p. nat_eq p place) (listed self.now.places)) }
    {
        self.expression == e && self.places.as_slice().contains(&place)
    }
}
