// Rings: values that are added and multiplied, with a meaning that each call keeps exactly.
#![tactic(auto)]

mod kind;
mod operations;
mod pair;
mod wheel;
mod word;

pub use kind::Ring;
pub use operations::{
    Operations, operations_at, pair_of_pairs_product, pair_operations, wheel_operations,
    word_operations,
};
pub use pair::Pair;
pub use wheel::Wheel;
pub use word::Word;
