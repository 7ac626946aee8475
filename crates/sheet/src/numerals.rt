ghost use Rattle.std.specs.Prelude.{ℕ, ◌<◌, ◌≤◌, length, slice_index};
ghost use Rattle.few.specs.Listed.{listed};

use few::Few;

mod calls;

// At most eight numerals, each 2 or more.
#[derive(Clone, Copy)]
pub struct Numerals {
    values: Few<u16, 8>,
    ghost large: { (k : ℕ) → k < length (listed values) → 2 ≤ slice_index (listed values) k },
}
