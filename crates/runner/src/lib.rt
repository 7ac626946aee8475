#![tactic(auto)]

mod bench;
mod refusal;
mod running;
mod values;

pub use bench::Bench;
pub use refusal::RunRefusal;
pub use running::run;
