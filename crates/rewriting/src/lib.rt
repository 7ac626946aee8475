// Styles and their rewritings, factor and share, as theory: what they keep and what they save, what holds of every style
// that they lead to, and the style that entered terms make. Each function does nothing: its contract is a theorem.
#![tactic(auto)]

mod book;
mod choice;
mod closed;
mod factor;
mod figures;
mod order;
mod presses;
mod share;

pub use book::{written_style, written_worth};
pub use choice::{candidates_fair, pairs_share};
pub use closed::{columns_distinct, stays_closed};
pub use factor::{factor_keeps_worth, factor_saves, taking_fits};
pub use figures::rewriting_figures;
pub use order::stays_ordered;
pub use presses::{presses_keep_values, presses_keep_worth, presses_lower, two_thousand};
pub use share::{share_keeps_worth, share_saves};
