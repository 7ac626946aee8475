ghost use Rattle.std.specs.Prelude.{◌≡◌, Some, [], ◌∷◌};
ghost use Rattle.std.specs.Fmt.{◌++?◌};
ghost use Rattle.ring.specs.Pairs.{pairs};
ghost use Rattle.ring.specs.Kinds.{pair_meaning};

use crate::Ring;
use std::fmt;

// A dual number over a kind: a value, and the rate at which it changes.
#[derive(Clone, Copy, PartialEq, Eq, Debug)]
pub struct Pair<R> {
    pub value: R,
    pub rate: R,
}

// The value and the rate, with a space between them.
impl<R: fmt::Display> fmt::Display for Pair<R> {
    ghost output = { λ p. R.output p.value ++? Some (32 ∷ []) ++? R.output p.rate };

    fn fmt<W: fmt::Write>(&self, f: &mut fmt::Formatter<W>) -> fmt::Result {
        write!(f, "{} {}", self.value, self.rate)
    }
}

impl<R: Ring> Pair<R> {
    // a value that does not change
    fn constant(value: R) -> Pair<R>
        ensures { pair_meaning R.meaning result ≡ (R.meaning value, R.ring.zero) }
    {
        Pair {
            value,
            rate: R::zero(),
        }
    }
}

impl<R: Ring> Ring for Pair<R> {
    ghost Meaning = { R.Ring.Meaning × R.Ring.Meaning };

    ghost ring = { pairs R.Ring.ring };

    ghost meaning = { pair_meaning R.Ring.meaning };

    fn zero() -> Pair<R> {
        Pair::constant(R::zero())
    }

    fn one() -> Pair<R> {
        Pair::constant(R::one())
    }

    fn numeral(n: u16) -> Pair<R> {
        Pair::constant(R::numeral(n))
    }

    fn add(self, other: Pair<R>) -> Pair<R> {
        Pair {
            value: self.value.add(other.value),
            rate: self.rate.add(other.rate),
        }
    }

    // (v, w) times (p, q) is (v p, v q + w p)
    fn multiply(self, other: Pair<R>) -> Pair<R> {
        let Pair { value: v, rate: w } = self;
        let Pair { value: p, rate: q } = other;
        Pair {
            value: v.multiply(p),
            rate: v.multiply(q).add(w.multiply(p)),
        }
    }

    fn opposite(self) -> Pair<R> {
        Pair {
            value: self.value.opposite(),
            rate: self.rate.opposite(),
        }
    }
}
