use kernels::{Kernel, KernelRefusal};
use rules::{
    EmitRefusal, FactorAnswer, FactorRefusal, SettleAnswer, SettleRefusal, ShareAnswer,
    ShareRefusal,
};
use sheet::Sheet;

// What a press answered, with the list as it left it where it takes one.
#[derive(Drop)]
pub enum Outcome<R> {
    Kernels {
        list: Vec<Kernel>,
        answer: Result<usize, KernelRefusal>,
    },
    Factor {
        list: Vec<Kernel>,
        answer: Result<FactorAnswer, FactorRefusal>,
    },
    Share {
        answer: Result<ShareAnswer, ShareRefusal>,
    },
    Settle {
        list: Vec<Kernel>,
        answer: Result<SettleAnswer, SettleRefusal>,
    },
    // the sheet, and what its run put into the places
    Emit {
        answer: Result<(Sheet, Vec<R>), EmitRefusal>,
    },
}
