ghost use Rattle.rewriting.specs.Promises.{PressesKeepValues, PressesKeepWorth, PressesLower, TwoThousand};

use ring::Ring;

// Any number of presses lowers the counts by exactly the summed savings, and keeps the negations.
pub fn presses_lower()
    ensures { PressesLower }
{}

// In every ring: values of the letters that fit what presses led to fit what they started from, and every expression
// that stood is worth the same.
pub fn presses_keep_worth<R: Ring>()
    ensures { PressesKeepWorth R.Ring.ring }
{}

// In every ring: after any number of presses each formula is worth what its accepted terms are.
pub fn presses_keep_values<R: Ring>()
    ensures { PressesKeepValues R.Ring.ring }
{}

// What presses make of the style of the accepted terms has at most two thousand operations.
pub fn two_thousand()
    ensures { TwoThousand }
{}
