// The best column set of the kernels of a table.
#![tactic(auto)]

mod cards;
mod entry;
mod names;

pub use cards::best_set;
