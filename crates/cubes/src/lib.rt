// Cubes, rows and expressions: what polynomials are made of.
#![tactic(auto)]

mod cube;
mod expression;
mod row;

pub use cube::{Cube, LETTERS};
pub use expression::{Expression, ROWS, Refused};
pub use row::{Row, Sign, all_minus, divided_rows, holds};
