ghost use Rattle.std.specs.Prelude.{◌≡◌};
ghost use Rattle.tablet.specs.Answering.{Answered, ByKind};

use crate::error::EvaluationError;
use crate::evaluation::evaluate;
use crate::kind::Kind;
use crate::measures::read_measures;
use ring::{Pair, Wheel, Word};
use spelling::Spelled;
use std::alloc::Global;

// Evaluates a file at the measures that words spell, over one kind.
fn answer_over<R: Spelled>(
    heap: Global,
    file: &[u8],
    words: &[String],
) -> Result<String, EvaluationError>
    ensures { Answered R.Ring.ring R.Ring.meaning R.Spelled.spells R.Spelled.shows file.now words.now result }
{
    let measures: Vec<R> = read_measures(heap, words)?;
    evaluate(heap, file, &measures)
}

// Evaluates a file at the measures that words spell, over the kind that is asked for: the text to print.
pub fn answer_for(
    heap: Global,
    kind: Kind,
    file: &[u8],
    words: &[String],
) -> Result<String, EvaluationError>
    ensures { ByKind kind file.now words.now result }
{
    match kind {
        Kind::Word => answer_over::<Word>(heap, file, words),
        Kind::Wheel => answer_over::<Wheel>(heap, file, words),
        Kind::Pair => answer_over::<Pair<Word>>(heap, file, words),
    }
}
