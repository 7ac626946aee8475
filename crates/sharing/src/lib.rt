// The cube to share, which is the greatest common cube of two rows of a table that saves most, and the table with a cube shared out.
#![tactic(auto)]

mod count;
mod out;
mod pair;
mod search;

pub use out::share_out;
pub use pair::{Pair, Place};
pub use search::best_cube;
