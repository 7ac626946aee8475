ghost use Rattle.std.specs.Prelude.{◌≡◌};
ghost use Rattle.tablet.specs.declared.error.EvaluationError.TheVariants.{Memory, Refused, NotRun};

use runner::RunRefusal;
use sheet::Refusal;
use sheet_file::ReadRefused;
use std::alloc::{AllocError, AllocFailed};

// Why a file and words for its measures give no values.
#[derive(Clone, Copy, PartialEq, Eq, Debug)]
pub enum EvaluationError {
    // memory ran out
    Memory,
    // the place of the first word that is no measure
    WrongMeasure(usize),
    // the file is refused: why, and at which byte
    Refused { why: Refusal, place: usize },
    // the sheet is not run
    NotRun(RunRefusal),
}

impl From<AllocError> for EvaluationError {
    ghost from_gives = { λ _ e. e ≡ Memory };

    fn from(_error: AllocError) -> EvaluationError {
        EvaluationError::Memory
    }
}

impl<T: Drop> From<AllocFailed<T>> for EvaluationError {
    ghost from_gives = { λ _ e. e ≡ Memory };

    fn from(_error: AllocFailed<T>) -> EvaluationError {
        EvaluationError::from(AllocError)
    }
}

impl From<ReadRefused> for EvaluationError {
    ghost from_gives = { λ r e. e ≡ Refused r.why r.place };

    fn from(refused: ReadRefused) -> EvaluationError {
        EvaluationError::Refused {
            why: refused.why,
            place: refused.place,
        }
    }
}

impl From<RunRefusal> for EvaluationError {
    ghost from_gives = { λ why e. e ≡ NotRun why };

    fn from(why: RunRefusal) -> EvaluationError {
        EvaluationError::NotRun(why)
    }
}
