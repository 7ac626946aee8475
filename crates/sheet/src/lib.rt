// Operations, operands, steps and sheets, and what a sheet is worth.
#![tactic(auto)]

mod counts;
mod numerals;
mod operand;
mod operation;
mod refusal;
mod scope;
mod sheet;
mod step;

pub use counts::Counts;
pub use numerals::Numerals;
pub use operand::{Operand, UnknownOperand};
pub use operation::{Operation, UnknownOperation};
pub use refusal::{Refusal, Refused};
pub use scope::Scope;
pub use sheet::Sheet;
pub use step::Step;
