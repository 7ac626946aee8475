// A list of terms and presses, played on one blank style: every answer, and what every emitted sheet gives at the measures.
#![tactic(auto)]

mod outcome;
mod press;

pub use outcome::Outcome;
pub use press::Press;
