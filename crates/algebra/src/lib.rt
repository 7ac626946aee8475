// Polynomial expressions as theory: what cubes, rows and expressions are worth in every ring, how many operations they
// take, and which quotients of an expression are its kernels. Each function does nothing: its contract is a theorem.
#![tactic(auto)]

mod counts;
mod kernels;
mod worth;

pub use counts::count_laws;
pub use kernels::{kernel_figures, kernel_forms, nested_kernels};
pub use worth::worth_laws;
