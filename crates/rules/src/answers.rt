use crate::refusals::SettleEnd;

// What an accepted factor made: the part's letter, how many kernels were taken, how many columns the part has, and what is saved.
#[derive(Clone, Copy, PartialEq, Eq, Debug)]
pub struct FactorAnswer {
    pub part: usize,
    pub rows: usize,
    pub columns: usize,
    pub multiplications: usize,
    pub additions: usize,
}

// What an accepted share made: the part's letter, how many rows were divided, and what is saved.
#[derive(Clone, Copy, PartialEq, Eq, Debug)]
pub struct ShareAnswer {
    pub part: usize,
    pub rows: usize,
    pub multiplications: usize,
}

// How a settle ended, how many factors and shares it made, and what they save together.
#[derive(Clone, Copy, PartialEq, Eq, Debug)]
pub struct SettleAnswer {
    pub end: SettleEnd,
    pub factors: usize,
    pub shares: usize,
    pub multiplications: usize,
    pub additions: usize,
}
