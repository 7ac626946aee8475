ghost use Rattle.opening.specs.Holding.{HoldsAccepted};

use table::Table;

mod beginning;
mod closing;
mod entering;

// A style that takes terms: their rows, and how many there are, so that the eighty-first is refused without counting the rows anew.
#[derive(Drop)]
pub struct OpenStyle {
    table: Table,
    terms: usize,
    ghost noted: { ∥ HoldsAccepted table terms ∥₁ },
}
