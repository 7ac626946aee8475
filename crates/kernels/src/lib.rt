// The kernels of an expression: its quotients by a cube that no letter divides any more.
#![tactic(auto)]

mod kernel;
mod list;
mod node;
mod rest;
mod search;

pub use kernel::{Kernel, KernelRefusal};
pub use list::{kernels_of, kernels_of_all, one_joined_list_only, one_list_only};
