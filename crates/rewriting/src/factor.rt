ghost use Rattle.rewriting.specs.Promises.{FactorKeepsWorth, FactorSaves, TakingFits};

use ring::Ring;

// In every ring: values of the letters that fit the style after factor fit the style before it, and every expression
// that stood is worth the same in both.
pub fn factor_keeps_worth<R: Ring>()
    ensures { FactorKeepsWorth R.Ring.ring }
{}

// Factor lowers the multiplications and the additions by exactly what it saves, and keeps the negations.
pub fn factor_saves()
    ensures { FactorSaves }
{}

// What a column set takes through a list of kernels is what the theorems on factor ask, if it takes any.
pub fn taking_fits()
    ensures { TakingFits }
{}
