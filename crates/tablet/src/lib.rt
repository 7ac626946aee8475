// A sheet file, read, run at given measures over a kind of number, and its values told as text.
#![tactic(auto)]

mod answering;
mod error;
mod evaluation;
mod kind;
mod measures;
mod telling;

pub use answering::answer_for;
pub use error::EvaluationError;
pub use evaluation::{evaluate, run_sheet};
pub use kind::{Kind, UnknownKind};
pub use measures::read_measures;
