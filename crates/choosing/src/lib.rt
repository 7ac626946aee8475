// The column set that saves most among the kernels of a style.
#![tactic(auto)]

mod card;
mod choice;
mod column;
mod columns;
mod covered;
mod laws;
mod near;
mod search;
mod tally;
mod walk;

pub use card::Card;
pub use choice::Choice;
pub use column::Column;
pub use columns::Columns;
pub use laws::taken_in_order;
pub use search::{choose, weigh_set};
