// A short list that is kept in place: it is copied as a value, and takes no memory of the heap.
// The library's `arrayvec` cannot be copied, and its clone may fail, where the code that copies a list may not.
#![tactic(auto)]

mod few;

pub use few::Few;
