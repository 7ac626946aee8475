ghost use Rattle.rewriting.specs.Promises.{ShareKeepsWorth, ShareSaves};

use ring::Ring;

// In every ring: values of the letters that fit the style after share fit the style before it, and every expression
// that stood is worth the same in both.
pub fn share_keeps_worth<R: Ring>()
    ensures { ShareKeepsWorth R.Ring.ring }
{}

// Share lowers the multiplications by exactly what it saves, which is at least one, and keeps additions and negations.
pub fn share_saves()
    ensures { ShareSaves }
{}
