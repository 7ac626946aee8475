ghost use Rattle.std.specs.Prelude.{◌≡◌};
ghost use Rattle.ring.specs.Ring.{CommRing, ones_sum};

// A kind of value with a sum, a product and an opposite. Each value has a meaning in a commutative
// ring, and each call answers a value of exactly the meaning that the ring gives: none refuses.
pub trait Ring: Copy {
    // the set that the values have their meaning in
    ghost Meaning: { Type 0 };

    // its operations, with their laws
    ghost ring: { CommRing Meaning };

    // what a value means
    ghost meaning: { Self → Meaning };

    fn zero() -> Self
        ensures { meaning result ≡ ring.zero };

    fn one() -> Self
        ensures { meaning result ≡ ring.one };

    // n ones added
    fn numeral(n: u16) -> Self
        ensures { meaning result ≡ ones_sum ring n };

    fn add(self, other: Self) -> Self
        ensures { meaning result ≡ ring.plus (meaning self) (meaning other) };

    fn multiply(self, other: Self) -> Self
        ensures { meaning result ≡ ring.times (meaning self) (meaning other) };

    fn opposite(self) -> Self
        ensures { meaning result ≡ ring.opposite (meaning self) };
}
