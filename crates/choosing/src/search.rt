ghost use Rattle.std.specs.Prelude.{◌≡◌, ◌+◌, IfOk, Some, None, slice_get};
ghost use Rattle.few.specs.Listed.{listed};
ghost use Rattle.choosing.specs.Best.{Candidate, Tells, Chosen, NoGain};
ghost use Rattle.choosing.specs.Progress.{Weighed, SoFar};

use crate::card::Card;
use crate::choice::{Choice, better};
use crate::columns::Columns;
use crate::near::gather;
use crate::tally::{multiplications, walk};
use crate::walk::pick;
use std::alloc::{AllocError, Global};

// How many columns a set has at least.
const LEAST: usize = 2;

// What the set, whose columns are `picked`, saves among the kernels.
fn weigh(cards: &[Card], kernel: usize, set: usize, picked: &Columns) -> Choice
    ensures weighed { Weighed cards.now (listed picked.now) result }
    ensures at { (result.kernel ≡ kernel) × (result.set ≡ set) }
{
    let tally = walk(cards, picked);
    let rest = tally.after + multiplications(0, picked);
    let rows = tally.rows;
    let columns = picked.len();
    Choice {
        kernel,
        set,
        rows,
        columns,
        multiplications: tally.before.saturating_sub(rest),
        additions: rows.saturating_sub(1) as u128 * columns.saturating_sub(1) as u128,
    }
}

// What a set saves, told by the place of its kernel and by its number; none, if there is no such set of two columns or more.
pub fn weigh_set(cards: &[Card], kernel: usize, set: usize) -> Option<Choice>
    ensures { elim result [ Some x ↦ Tells cards.now x × ((x.kernel ≡ kernel) × (x.set ≡ set)) | None ↦ (Candidate cards.now kernel set → ⊥) ] }
{
    let card = cards.get(kernel)?;
    if set >= 1usize << card.columns.len() {
        return None;
    }
    let picked = pick(&card.columns, set);
    if picked.len() < LEAST {
        return None;
    }
    Some(weigh(cards, kernel, set, &picked))
}

// The better of `best` and the sets of one kernel, `card`.
//
// The walks go through the kernels that have two of its columns or more: no other is taken for such a set. The kernel's number is wanted
// for the choice, its card for the columns.
fn best_of_kernel(
    cards: &[Card],
    kernel: usize,
    card: &Card,
    weight: u32,
    best: Option<Choice>,
    heap: Global,
) -> Result<Option<Choice>, AllocError>
    requires at { slice_get cards.now kernel ≡ Some card.now }
    requires before { SoFar weight cards.now kernel 0 best }
    ensures { IfOk result (λ o. SoFar weight cards.now (kernel + 1) 0 o) }
{
    let near = gather(cards, card.columns.as_slice(), heap)?;
    let takers = near.as_slice();
    let end = 1usize << card.columns.len();
    let mut best = best;
    for set in 0..end {
        let picked = pick(&card.columns, set);
        if picked.len() >= LEAST {
            best = better(best, weigh(takers, kernel, set, &picked), weight);
        }
    }
    Ok(best)
}

// The set that saves most, and the first of those; none, if no set saves anything.
pub fn choose(cards: &[Card], weight: u32, heap: Global) -> Result<Option<Choice>, AllocError>
    ensures { IfOk result (λ o. elim o [ Some x ↦ Chosen weight cards.now x | None ↦ NoGain weight cards.now ]) }
{
    let mut best = None;
    for (kernel, card) in cards.iter().enumerate() {
        best = best_of_kernel(cards, kernel, card, weight, best, heap)?;
    }
    Ok(best)
}
