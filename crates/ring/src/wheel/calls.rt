ghost use Rattle.std.specs.Prelude.{◌≡◌, Some, decimal, ◌+◌, ◌-◌, ◌*◌, ◌%◌, ◌<◌};
ghost use Rattle.ring.specs.Residue.{Residue};
ghost use Rattle.ring.specs.Kinds.{wheel_ring, wheel_meaning};

use crate::Ring;
use crate::wheel::Wheel;
use std::fmt;

// The number below 97 that a wheel stands for, which is what it means.
impl From<Wheel> for u8 {
    ghost from_gives = { λ w n. (n < 97) × (n ≡ (wheel_meaning w).0) };

    fn from(wheel: Wheel) -> u8 {
        wheel.value
    }
}

impl fmt::Display for Wheel {
    ghost output = { λ w. Some (decimal w.value) };

    fn fmt<W: fmt::Write>(&self, f: &mut fmt::Formatter<W>) -> fmt::Result {
        write!(f, "{}", self.value)
    }
}

impl Wheel {
    // The wheel of any number: what it leaves modulo 97. Many numbers make one wheel, so it is no `From`.
    pub fn of(n: u32) -> Wheel
        ensures { result.value ≡ n % 97 }
    {
        Wheel {
            value: (n % 97) as u8,
        }
    }

    // The steps on the numbers themselves; the calls of the kind say what they mean.

    fn sum(self, other: Wheel) -> Wheel
        ensures { result.value ≡ (self.value + other.value) % 97 }
    {
        Wheel {
            value: (self.value + other.value) % 97,
        }
    }

    fn product(self, other: Wheel) -> Wheel
        ensures { result.value ≡ (self.value * other.value) % 97 }
    {
        Wheel::of(u32::from(self.value) * u32::from(other.value))
    }

    fn negative(self) -> Wheel
        ensures { result.value ≡ (97 - self.value) % 97 }
    {
        Wheel {
            value: (97 - self.value) % 97,
        }
    }
}

impl Ring for Wheel {
    ghost Meaning = { Residue 97 };

    ghost ring = { wheel_ring };

    ghost meaning = { wheel_meaning };

    fn zero() -> Wheel {
        Wheel { value: 0 }
    }

    fn one() -> Wheel {
        Wheel { value: 1 }
    }

    fn numeral(n: u16) -> Wheel {
        Wheel::of(u32::from(n))
    }

    fn add(self, other: Wheel) -> Wheel {
        self.sum(other)
    }

    fn multiply(self, other: Wheel) -> Wheel {
        self.product(other)
    }

    fn opposite(self) -> Wheel {
        self.negative()
    }
}
