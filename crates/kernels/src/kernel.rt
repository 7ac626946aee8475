ghost use Rattle.std.specs.Prelude.{◌≡◌};
ghost use Rattle.kernels.specs.Kernels.{refusal_number};

use cubes::{Cube, ROWS};

// A kernel: the number of its expression, its co-kernel, and which rows of the expression this divides.
// Exactly the rows used are asked for, so each row has its own answer, and no list of them can name one twice.
#[derive(Clone, Copy, PartialEq, Eq, Debug)]
pub struct Kernel {
    pub expression: usize,
    pub cokernel: Cube,
    pub rows: [bool; ROWS],
}

// Why kernels are not listed, and the number that the reason is known by.
#[derive(Clone, Copy, PartialEq, Eq, Debug)]
pub enum KernelRefusal {
    // the list has fewer places than there are kernels
    ShortList = 9,
}

impl From<KernelRefusal> for u8 {
    ghost from_gives = { λ why n. n ≡ refusal_number why };

    fn from(why: KernelRefusal) -> u8 {
        why as u8
    }
}
