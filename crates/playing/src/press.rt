// A call on a closed style, with its arguments and the length of the buffer that it is given.
#[derive(Clone, Copy, PartialEq, Eq, Debug)]
pub enum Press {
    Kernels { places: usize },
    Factor { weight: u32, places: usize },
    Share,
    Settle { weight: u32, places: usize },
    Emit { places: usize },
}
