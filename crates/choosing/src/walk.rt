ghost use Rattle.std.specs.Prelude.{◌≡◌};
ghost use Rattle.few.specs.Listed.{listed};
ghost use Rattle.choosing.specs.Sets.{chosen};
ghost use Rattle.choosing.specs.Taken.{covers, row_of, clear, fits, with_row, cover};

use crate::column::Column;
use crate::columns::Columns;
use crate::covered::Covered;

// The columns that the binary number `set` names: the first counts 1, the second 2, the third 4.
//
// A loop: columns kept in place are put one by one, and cannot be collected. The set is halved, as its definition does; factoring does so
// with rows that it divides on the way, and knows no columns.
pub(crate) fn pick(columns: &Columns, set: usize) -> Columns
    ensures { listed result ≡ chosen set (listed columns.now) }
{
    let mut picked = Columns::new();
    let mut rest = set;
    for c in columns.as_slice() {
        if rest % 2 == 1 {
            picked.push(*c).unwrap();
        }
        rest /= 2;
    }
    picked
}

// The row behind the column of this name.
//
// A loop: the choice spends most of its time here. With `find` and `map` it takes a sixth more instructions (docs/DESIGN-PASS.md).
pub(crate) fn find(columns: &[Column], name: usize) -> Option<u8>
    ensures { result ≡ row_of name columns.now }
{
    for c in columns {
        if c.name == name {
            return Some(c.row);
        }
    }
    None
}

// Whether the kernel has the column, and the row behind it is not covered. (The columns are the kernel's, what is covered is the walk's:
// a struct of both would be made for each kernel anew.)
fn is_open(columns: &[Column], name: usize, covered: &Covered) -> bool
    ensures { result ≡ clear (covers covered.now) (row_of name columns.now) }
{
    find(columns, name).is_some_and(|row| !covered.has(row))
}

// Whether the kernel has every column of the set, and no row behind them is covered.
pub(crate) fn is_taken(columns: &[Column], set: &[Column], covered: &Covered) -> bool
    ensures { result ≡ fits (covers covered.now) columns.now set.now }
{
    set.iter().all(|c| is_open(columns, c.name, covered))
}

// Covers the row behind the column.
fn cover_one(columns: &[Column], name: usize, covered: &mut Covered)
    ensures { covers covered.new ≡ with_row (covers covered.old) (row_of name columns.now) }
{
    if let Some(row) = find(columns, name) {
        covered.add(row);
    }
}

// Covers the rows behind the columns of the set.
pub(crate) fn cover_set(columns: &[Column], set: &[Column], covered: &mut Covered)
    ensures { covers covered.new ≡ cover (covers covered.old) columns.now set.now }
{
    for c in set {
        cover_one(columns, c.name, covered);
    }
}
