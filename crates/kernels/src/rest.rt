ghost use Rattle.std.specs.Prelude.{◌≡◌, ℕ, ◌<◌, ◌≤◌, true, false, is_some, slice_index_or};
ghost use Rattle.cubes.specs.Expressions.{rows_of};
ghost use Rattle.cubes.specs.Powers.{power};
ghost use Rattle.cubes.specs.Rows.{most_rows};
ghost use Rattle.kernels.specs.Rests.{slot, SlotQuotient, Quotient, Pair, Lone, Greatest, Spread};

use cubes::{Cube, Expression, LETTERS, ROWS};

// The rows that are left of an expression: the cube of each at its own place, and none where a row has gone.
#[derive(Clone, Copy)]
pub(crate) struct Rest {
    pub slots: [Option<Cube>; ROWS],
}

impl Rest {
    // every row of an expression, at its place; the places behind its rows stay empty, so the array is filled by place
    pub(crate) fn whole(e: &Expression) -> Rest
        ensures { Spread (rows_of e.now) result }
    {
        let mut slots = [None; ROWS];
        for (k, row) in e.rows().iter().enumerate() {
            slots[k] = Some(row.cube);
        }
        Rest { slots }
    }

    // the quotient: every row that c divides, divided by c
    // A new array is filled by place: a test of three expressions takes 270 thousand instructions so, and 293 thousand by changing a copy.
    pub(crate) fn quotient(&self, c: Cube) -> Rest
        ensures { Quotient self.now (power c) result }
    {
        let mut slots = [None; ROWS];
        for (k, slot) in self.slots.iter().enumerate() {
            if let Some(cube) = slot {
                slots[k] = cube.divide(c);
            }
        }
        Rest { slots }
    }

    // whether two rows or more are left
    pub(crate) fn has_pair(&self) -> bool
        ensures yes { result ≡ true → Pair self.now }
        ensures no { result ≡ false → Lone self.now }
    {
        self.slots.iter().filter(|slot| slot.is_some()).count() >= 2
    }

    // the greatest cube that divides every row; a `for`, in which the invariant says what the cubes so far have in common
    pub(crate) fn common_cube(&self) -> Cube
        requires { Pair self.now }
        ensures { Greatest self.now (power result) }
    {
        let mut common = Cube {
            powers: [u8::MAX; LETTERS],
        };
        for slot in &self.slots {
            if let Some(cube) = slot {
                common = common.common(*cube);
            }
        }
        common
    }

    // which rows are left
    pub(crate) fn used_rows(&self) -> [bool; ROWS]
        ensures { (k : ℕ) → k < most_rows → slice_index_or result k false ≡ is_some (slot self.now k) }
    {
        self.slots.map(|slot| slot.is_some())
    }
}
