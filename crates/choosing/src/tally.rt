ghost use Rattle.std.specs.Prelude.{◌≡◌, ◌+◌, ◌^◌, ◌<◌, ◌≤◌};
ghost use Rattle.few.specs.Listed.{listed};
ghost use Rattle.choosing.specs.Savings.{muls, spent};
ghost use Rattle.choosing.specs.Tallies.{Looked, Tallied};

use crate::card::Card;
use crate::column::Column;
use crate::columns::Columns;
use crate::covered::Covered;
use crate::walk::{cover_set, is_taken};

// The rows that are covered, the kernels taken, and the multiplications of their rows before and after.
#[derive(Clone, Copy)]
pub(crate) struct Tally {
    pub covered: Covered,
    pub rows: usize,
    pub before: u128,
    pub after: u128,
}

// The multiplications of the row behind a column in a kernel whose co-kernel has this degree.
fn row_multiplications(degree: u16, column: &Column) -> u32
    ensures is { result ≡ muls (degree + column.now.degree) }
    ensures small { result < 2 ^ 17 }
{
    (u32::from(degree) + u32::from(column.degree)).saturating_sub(1)
}

// The same of the rows behind the set.
pub(crate) fn multiplications(degree: u16, set: &Columns) -> u128
    ensures is { result ≡ spent degree (listed set.now) }
    ensures small { result ≤ 2 ^ 20 }
{
    let sum: u32 = set
        .as_slice()
        .iter()
        .map(move |c| row_multiplications(degree, c))
        .sum();
    u128::from(sum)
}

impl Tally {
    // Takes the kernel, if it can be taken.
    fn look(&mut self, card: &Card, set: &Columns)
        requires { (self.old.rows + 1 < 2 ^ 64) × (self.old.before < 2 ^ 100) × (self.old.after < 2 ^ 100) }
        ensures { Looked (listed set.now) card.now self.old self.new }
    {
        let columns = card.columns.as_slice();
        if is_taken(columns, set.as_slice(), &self.covered) {
            cover_set(columns, set.as_slice(), &mut self.covered);
            self.rows += 1;
            self.before += multiplications(card.degree, set);
            self.after += u128::from(card.degree);
        }
    }
}

// Goes through the kernels from the head of the list, and takes those that can be taken.
pub(crate) fn walk(cards: &[Card], set: &Columns) -> Tally
    ensures { Tallied cards.now (listed set.now) result }
{
    let mut tally = Tally {
        covered: Covered::new(),
        rows: 0,
        before: 0,
        after: 0,
    };
    for card in cards {
        tally.look(card, set);
    }
    tally
}
