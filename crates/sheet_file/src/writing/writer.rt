ghost use Rattle.std.specs.Prelude.{◌≡◌, ℕ, ◌+◌, ◌<◌, ◌≤◌, ◌^◌, length, slice_index_or};
ghost use Rattle.std.specs.List.{flat_map};
ghost use Rattle.sheet_file.specs.Writing.{Puts};

use crate::writing::entry::Entry;

// A buffer, and the place where the next byte goes.
#[derive(Drop)]
pub(crate) struct Writer<'a> {
    pub(crate) out: &'a mut [u8],
    pub(crate) at: usize,
}

impl Writer<'_> {
    pub(crate) fn put(&mut self, bytes: &[u8])
        requires { self.old.at + length bytes.now ≤ length self.old.out.now }
        ensures same_reference { self.new.out.ghost_name ≡ self.old.out.ghost_name }
        ensures long { length self.new.out.now ≡ length self.old.out.now }
        ensures puts { Puts self.old.out.now self.old.at bytes.now self.new.at self.new.out.now }
    {
        let end = self.at + bytes.len();
        self.out[self.at..end].copy_from_slice(bytes);
        self.at = end;
    }

    // The bytes of each entry, in their order.
    pub(crate) fn put_all<T: Entry<N>, const N: usize>(&mut self, entries: &[T])
        requires short { N < 2 ^ 63 }
        requires fit { (k : ℕ) (d : T) → k < length entries.now → T.fits (slice_index_or entries.now k d) }
        requires room { self.old.at + length (flat_map T.written entries.now) ≤ length self.old.out.now }
        ensures same_reference { self.new.out.ghost_name ≡ self.old.out.ghost_name }
        ensures long { length self.new.out.now ≡ length self.old.out.now }
        ensures puts { Puts self.old.out.now self.old.at (flat_map T.written entries.now) self.new.at self.new.out.now }
    {
        for entry in entries {
            self.put(&entry.bytes());
        }
    }
}
