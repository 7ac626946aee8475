ghost use Rattle.std.specs.Prelude.{◌≡◌, ℕ, ◌<◌, ◌≤◌, length, vec_len};
ghost use Rattle.sheet.specs.Legal.{LegalSteps, LegalOperands};
ghost use Rattle.sheet.specs.Numerals.{numerals_list};

use crate::numerals::Numerals;
use crate::operand::Operand;
use crate::step::Step;

mod making;
mod parts;

// Numerals, steps and sixteen outputs. The steps are the first `used` of the caller's buffer, which goes back with
// what stands behind them: so the buffer stays whole, with their number beside it.
#[derive(Drop)]
pub struct Sheet {
    numerals: Numerals,
    buffer: Vec<Step>,
    used: u16,
    outputs: [Operand; 16],
    ghost few: { used ≤ 2000 },
    ghost room: { used ≤ vec_len buffer },
    ghost legal: { LegalSteps (length (numerals_list numerals)) used buffer.items },
    ghost exist: { LegalOperands (length (numerals_list numerals)) used 16 outputs },
    ghost sixteen: { length outputs ≡ 16 },
}
