ghost use Rattle.std.specs.Prelude.{◌≡◌, length};
ghost use Rattle.tablet.specs.Measuring.{Measured};

use crate::error::EvaluationError;
use spelling::Spelled;
use std::alloc::Global;

// Reads words as values of a kind; the error says the place of the first word that is none.
pub fn read_measures<R: Spelled>(heap: Global, words: &[String]) -> Result<Vec<R>, EvaluationError>
    ensures { Measured R.Spelled.spells words.now result }
{
    let mut values = Vec::new(heap);
    for (k, word) in words.iter().enumerate() {
        let Some(value) = R::read(word.as_str()) else {
            return Err(EvaluationError::WrongMeasure(k));
        };
        values.push(value)?;
    }
    Ok(values)
}
