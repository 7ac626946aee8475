ghost use Rattle.std.specs.Prelude.{◌≡◌, ◌<◌, ◌≤◌, true, false, ◌⊎◌, Some, None, Ok, Err, unsigned_abs};
ghost use Rattle.opening.specs.Checks.{AlwaysRefused, Passes, power_sum};
ghost use Rattle.opening.specs.Holding.{term_of};

use crate::powers::{MEASURES, TermPowers};
use crate::refusal::EnterRefusal;
use table::FORMULAS;

// The largest sum of a term's powers.
const DEGREE: u64 = 24;

// The magnitude of a coefficient, if it is one that a term may have.
fn magnitude_of(coefficient: i64) -> Option<u16>
    ensures { elim result [ Some m ↦ (m ≡ unsigned_abs coefficient) × (1 ≤ m) × (m ≤ 65535) | None ↦ (unsigned_abs coefficient ≡ 0) ⊎ (65535 < unsigned_abs coefficient) ] }
{
    u16::try_from(coefficient.unsigned_abs())
        .ok()
        .filter(|m| *m > 0)
}

// Whether the powers sum to no more than a term may have.
fn is_light(powers: &[u64]) -> bool
    ensures yes { result ≡ true → power_sum powers.now ≤ 24 }
    ensures no { result ≡ false → 24 < power_sum powers.now }
{
    powers.iter().fold(0u64, |sum, p| sum.saturating_add(*p)) <= DEGREE
}

// The checks that the term alone decides, in their order. The answer is the magnitude of the coefficient, and the powers.
pub(crate) fn check(
    formula: usize,
    coefficient: i64,
    powers: &[u64],
) -> Result<(u16, TermPowers), EnterRefusal>
    ensures { elim result [ Ok x ↦ Passes (term_of formula coefficient powers.now) x.0 x.1.each | Err why ↦ AlwaysRefused why (term_of formula coefficient powers.now) ] }
{
    if formula >= FORMULAS {
        return Err(EnterRefusal::Formula);
    }
    let magnitude = magnitude_of(coefficient).ok_or(EnterRefusal::Coefficient)?;
    let each = <[u64; MEASURES]>::try_from(powers).map_err(|_| EnterRefusal::Powers)?;
    if !is_light(powers) {
        return Err(EnterRefusal::Degree);
    }
    Ok((magnitude, TermPowers { each }))
}
