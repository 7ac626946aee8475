#![tactic(auto)]

mod copying;
mod entries;
mod fault;
mod layout;
mod reading;
mod section;
mod sections;
mod writing;

pub use copying::{CopyRefusal, copy_file, copy_sheet};
pub use reading::{ReadRefused, read};
pub use writing::{WriteRefusal, write};
