// Takes a set of columns out of a style: the kernels that it takes through the list, and the table with one part more.
#![tactic(auto)]

mod columns;
mod factored;
mod order;
mod part;
mod rewritten;
mod taken;
mod taking;

pub use factored::{Factored, take_out};
