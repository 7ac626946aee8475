ghost use Rattle.std.specs.Prelude.{◌≡◌, ℕ, ◌<◌, ◌≤◌, length, MatchOption, nat_lt, slice_index_or, slice_set};

// Cells for the values of a run, over a lent slice: one container for every ring kind. Its methods hand the slice to functions (a rule of
// the project), so each has one of the same contract. `put` answers whether there is such a cell, as a set's insert answers.
#[derive(Drop)]
pub struct Bench<'a, R> {
    cells: &'a mut [R],
}

// Puts a value into a cell that is there.
pub(crate) fn write_cell<R: Copy>(cells: &mut [R], i: usize, value: R)
    requires { i < length cells.old }
    ensures { cells.new ≡ slice_set cells.old i value }
{
    cells[i] = value;
}

// No `get_mut`: what it leaves behind the loan was not proved.
fn put_cell<R: Copy>(cells: &mut [R], i: usize, value: R) -> bool
    ensures told { result ≡ nat_lt i (length cells.old) }
    ensures after { cells.new ≡ slice_set cells.old i value }
{
    if i >= cells.len() {
        return false;
    }
    write_cell(cells, i, value);
    true
}

fn read_cell<R: Copy>(cells: &[R], i: usize) -> Option<R>
    ensures { MatchOption result (length cells.now ≤ i) (λ x. (i < length cells.now) × (x ≡ slice_index_or cells.now i x)) }
{
    cells.get(i).copied()
}

// The value in a cell, or another where there is no such cell.
pub(crate) fn cell_or<R: Copy>(cells: &[R], i: usize, other: R) -> R
    ensures { result ≡ slice_index_or cells.now i other }
{
    cells.get(i).copied().unwrap_or(other)
}

impl<'a, R: Copy> Bench<'a, R> {
    pub fn over(cells: &'a mut [R]) -> Bench<'a, R>
        ensures { result.cells.now ≡ cells.old }
    {
        Bench { cells }
    }

    pub fn len(&self) -> usize
        ensures { result ≡ length self.now.cells.now }
    {
        self.cells.len()
    }

    // Puts a value into a cell; false, and nothing written, where there is no such cell.
    pub fn put(&mut self, i: usize, value: R) -> bool
        ensures told { result ≡ nat_lt i (length self.old.cells.now) }
        ensures after { self.new.cells.now ≡ slice_set self.old.cells.now i value }
    {
        put_cell(self.cells, i, value)
    }

    // The value in a cell, where there is one.
    pub fn read(&self, i: usize) -> Option<R>
        ensures { MatchOption result (length self.now.cells.now ≤ i) (λ x. (i < length self.now.cells.now) × (x ≡ slice_index_or self.now.cells.now i x)) }
    {
        read_cell(self.cells, i)
    }

    // The value in a cell, or another where there is no such cell.
    pub(crate) fn read_or(&self, i: usize, other: R) -> R
        ensures { result ≡ slice_index_or self.now.cells.now i other }
    {
        cell_or(self.cells, i, other)
    }

    // Puts a value into a cell that is there.
    pub(crate) fn write(&mut self, i: usize, value: R)
        requires { i < length self.old.cells.now }
        ensures { self.new.cells.now ≡ slice_set self.old.cells.now i value }
    {
        write_cell(self.cells, i, value)
    }
}
