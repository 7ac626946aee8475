// The open style, which takes terms.
#![tactic(auto)]

mod checks;
mod growing;
mod placing;
mod powers;
mod refusal;
mod style;

pub use refusal::EnterRefusal;
pub use style::OpenStyle;
