ghost use Rattle.std.specs.Prelude.{◌≡◌, IfOk, filter};
ghost use Rattle.choosing.specs.Near.{shared, near_to};

use crate::card::Card;
use crate::column::Column;
use crate::walk::find;
use std::alloc::{AllocError, Global};

// How many of the columns a near kernel has at least.
const SHARED: usize = 2;

// How many of the columns the kernel has.
fn count_shared(kernel: &[Column], columns: &[Column]) -> usize
    ensures { result ≡ shared kernel.now columns.now }
{
    columns
        .iter()
        .filter(|c| find(kernel, c.name).is_some())
        .count()
}

// The kernels that have two of the columns or more, in their order.
pub(crate) fn gather(
    cards: &[Card],
    columns: &[Column],
    heap: Global,
) -> Result<Vec<Card>, AllocError>
    ensures { IfOk result (λ near. near.items ≡ filter (near_to columns.now) cards.now) }
{
    cards
        .iter()
        .filter(|card| count_shared(card.columns.as_slice(), columns) >= SHARED)
        .copied()
        .collect(heap)
}
