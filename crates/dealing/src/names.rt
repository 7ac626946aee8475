ghost use Rattle.std.specs.Prelude.{◌≡◌, true, false, [], IfOk, Some, None};
ghost use Rattle.cubes.specs.Rows.{as_row};
ghost use Rattle.rewriting.specs.Taking.{alike, found, spot};
ghost use Rattle.dealing.specs.Naming.{Naming, entry_row, named_rows};

use crate::entry::Entry;
use cubes::Row;
use std::alloc::{AllocError, Global};

// The signed cubes that have names: the name of one is its place. Cubes are only added behind, so a name stays. They lie in a Vec
// that is searched: the contracts speak of the list of named rows, which a map would need beside it.
#[derive(Drop)]
pub(crate) struct Names {
    entries: Vec<Entry>,
}

// Whether two entries have the same sign and the same powers.
fn same(a: Entry, b: Entry) -> bool
    ensures { result ≡ alike (entry_row a) (entry_row b) }
{
    a == b
}

impl Names {
    // No cube has a name yet.
    pub(crate) fn new(heap: Global) -> Names
        ensures { named_rows result ≡ [] }
    {
        Names {
            entries: Vec::new(heap),
        }
    }

    // The name of a signed cube, if it has one.
    fn find(&self, sought: &Entry) -> Option<usize>
        ensures { elim result [ Some n ↦ (found (named_rows self.now) (entry_row sought.now) ≡ true) × (n ≡ spot (named_rows self.now) (entry_row sought.now)) | None ↦ found (named_rows self.now) (entry_row sought.now) ≡ false ] }
    {
        self.entries
            .as_slice()
            .iter()
            .position(|entry| same(*entry, *sought))
    }

    // The name of a signed cube: the place of the first that is alike, where it is added if there is none.
    pub(crate) fn name_of(&mut self, row: Row) -> Result<usize, AllocError>
        ensures { IfOk result (λ n. Naming (named_rows self.old) (as_row row) n (named_rows self.new)) }
    {
        let degree = row.cube.degree();
        let entry = Entry { degree, row };
        match self.find(&entry) {
            Some(n) => Ok(n),
            None => {
                let n = self.entries.len();
                self.entries.push(entry)?;
                Ok(n)
            }
        }
    }
}
