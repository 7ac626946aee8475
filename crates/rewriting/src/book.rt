ghost use Rattle.rewriting.specs.Promises.{WrittenClosed, WrittenOrdered, WrittenWorth};

use ring::Ring;

// In every ring: the style that the accepted terms make is worth, formula by formula, what the accepted terms are.
pub fn written_worth<R: Ring>()
    ensures { WrittenWorth R.Ring.ring }
{}

// The style that the accepted terms make is closed, and the formulas are its making order.
pub fn written_style()
    ensures closed { WrittenClosed }
    ensures ordered { WrittenOrdered }
{}
