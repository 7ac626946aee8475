// The calls on a closed style, as rules: what each answers and what it leaves, and what follows for every course of calls.
#![tactic(auto)]

mod answers;
mod refusals;

pub use answers::{FactorAnswer, SettleAnswer, ShareAnswer};
pub use refusals::{EmitRefusal, FactorRefusal, SettleEnd, SettleRefusal, ShareRefusal};
