// The row table of a style: its expressions, its numerals and its making order.
#![tactic(auto)]

mod counts;
mod parts;
mod rows;
mod table;

pub use table::{EXPRESSIONS, FORMULAS, PARTS, Table};
