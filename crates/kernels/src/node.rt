ghost use Rattle.std.specs.Prelude.{◌≡◌, ℕ, ◌<◌, ◌≤◌, true, false, Some, None};
ghost use Rattle.algebra.specs.Cubes.{letters};
ghost use Rattle.cubes.specs.Expressions.{rows_of};
ghost use Rattle.cubes.specs.Powers.{power};
ghost use Rattle.kernels.specs.Search.{Small, Leads, Barren, Begins, Bare};

use crate::rest::Rest;
use cubes::{Cube, Expression};

// What is left of an expression, and the cube that it was divided by.
#[derive(Clone, Copy)]
pub(crate) struct Node {
    pub rest: Rest,
    pub cube: Cube,
}

// whether a letter before j divides c
fn has_before(c: Cube, j: usize) -> bool
    requires { j ≤ letters }
    ensures yes { result ≡ true → ((l : ℕ) × (l < j) × (0 < power c l)) }
    ensures no { result ≡ false → (l : ℕ) → l < j → power c l ≡ 0 }
{
    c.powers[..j].iter().any(|p| *p > 0)
}

impl Node {
    // Divides the whole expression by the common cube of its rows: none where it has fewer than two.
    pub(crate) fn first(e: &Expression) -> Option<Node>
        ensures { elim result [ Some x ↦ Begins (rows_of e.now) x.rest (power x.cube) | None ↦ Bare (rows_of e.now) ] }
    {
        let q = Rest::whole(e);
        if !q.has_pair() {
            return None;
        }
        let cube = q.common_cube();
        let rest = q.quotient(cube);
        Some(Node { rest, cube })
    }

    // Divides by the letter j, and by the common cube of what is left: none where fewer than two rows
    // are left, or where a letter before j divides them all, since that one leads to the same quotient.
    pub(crate) fn step(&self, j: usize) -> Option<Node>
        requires letter { j < letters }
        requires small { Small self.now.rest (power self.now.cube) }
        ensures { elim result [ Some x ↦ Leads self.now.rest (power self.now.cube) j x.rest (power x.cube) | None ↦ Barren self.now.rest (power self.now.cube) j ] }
    {
        let x = Cube::letter(j)?;
        let by_letter = self.rest.quotient(x);
        if !by_letter.has_pair() {
            return None;
        }
        let c = by_letter.common_cube();
        if has_before(c, j) {
            return None;
        }
        let rest = by_letter.quotient(c);
        let cube = self.cube.multiply(x)?.multiply(c)?;
        Some(Node { rest, cube })
    }
}
