ghost use Rattle.std.specs.Prelude.{◌^◌, ◌<◌};

mod calls;

pub(crate) use calls::better;

// A set of columns: the place of its kernel in the list, and the set as a binary number over the kernel's columns;
// how many kernels are taken for it, how many columns it has, and what it saves.
#[derive(Clone, Copy, PartialEq, Eq, Debug)]
pub struct Choice {
    pub kernel: usize,
    pub set: usize,
    pub rows: usize,
    pub columns: usize,
    pub multiplications: u128,
    pub additions: u128,
    ghost multiplied: { multiplications < 2 ^ 90 },
    ghost added: { additions < 2 ^ 90 },
}
