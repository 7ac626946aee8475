// The steps of a style's table, written into a buffer.
#![tactic(auto)]

mod counts;
mod draft;
mod expressions;
mod products;
mod sums;
mod writing;

pub use writing::{Written, write_steps};
