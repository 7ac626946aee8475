ghost use Rattle.algebra.specs.Laws.{WorthLaws};

use ring::Ring;

// In every ring, whatever the letters are worth: the worth of products, quotients and letters, of an expression in
// parts and in another order, and of the rows that a cube divides.
pub fn worth_laws<R: Ring>()
    ensures { WorthLaws R.Ring.ring }
{}
