ghost use Rattle.std.specs.Prelude.{◌≡◌, ◌<◌, ◌≤◌, ◌⊎◌, List, [], ◌∷◌, ◌++◌, length, take, Ok, Err, slice_set};
ghost use Rattle.std.specs.List.{insert};
ghost use Rattle.few.specs.Listed.{listed};

use crate::few::Few;

impl<T: Copy + Default, const N: usize> Few<T, N> {
    // No items.
    pub fn new() -> Few<T, N>
        ensures { listed result ≡ [] }
    {
        Few {
            items: [T::default(); N],
            len: 0,
        }
    }
}

impl<T: Copy, const N: usize> Few<T, N> {
    // The items, in their order.
    pub fn as_slice(&self) -> &[T]
        ensures is { result.now ≡ listed self.now }
        ensures few { length result.now ≤ N }
    {
        &self.items[..self.len]
    }

    // How many there are.
    pub fn len(&self) -> usize
        ensures is { result ≡ length (listed self.now) }
        ensures few { result ≤ N }
    {
        self.as_slice().len()
    }

    // Puts an item behind the others; gives it back where there are N.
    pub fn push(&mut self, item: T) -> Result<(), T>
        ensures { elim result [ Ok _ ↦ listed self.new ≡ listed self.old ++ item ∷ [] | Err x ↦ (x ≡ item) × (length (listed self.old) ≡ N) × (self.new ≡ self.old) ] }
    {
        if self.len == N {
            return Err(item);
        }
        self.items[self.len] = item;
        self.len += 1;
        Ok(())
    }

    // Puts an item in the place of another; gives it back where there is none.
    // In place of a `&mut` to the items: Rattle proves no loan out of an array of a type parameter.
    pub fn set(&mut self, place: usize, item: T) -> Result<(), T>
        ensures { elim result [ Ok _ ↦ (place < length (listed self.old)) × (listed self.new ≡ slice_set (listed self.old) place item) | Err x ↦ (x ≡ item) × (length (listed self.old) ≤ place) × (self.new ≡ self.old) ] }
    {
        if place >= self.len {
            return Err(item);
        }
        self.items[place] = item;
        Ok(())
    }

    // Puts an item at a place, before those from there on; gives it back where there are N, or there is no such place.
    pub fn insert(&mut self, at: usize, item: T) -> Result<(), T>
        ensures { elim result [ Ok _ ↦ (at ≤ length (listed self.old)) × (listed self.new ≡ insert (listed self.old) at item) | Err x ↦ (x ≡ item) × ((length (listed self.old) ≡ N) ⊎ (length (listed self.old) < at)) × (self.new ≡ self.old) ] }
    {
        if at > self.len {
            return Err(item);
        }
        self.push(item)?;
        last_to(&mut self.items, self.len, at);
        Ok(())
    }
}

// Moves the last of the first `len` items to a place, and those from there on up.
fn last_to<T>(items: &mut [T], len: usize, at: usize)
    requires { (at < len) × (len ≤ length items.old) }
    ensures moved { (front : List T) (last : T) → take len items.old ≡ front ++ last ∷ [] → take len items.new ≡ insert front at last }
    ensures long { length items.new ≡ length items.old }
{
    let first = &mut items[..len];
    first[at..].rotate_right(1);
}
