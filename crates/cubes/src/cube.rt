ghost use Rattle.std.specs.Prelude.{◌≡◌, ◌+◌, ◌*◌, ◌<◌, ◌≤◌, true, false, Some, None};
ghost use Rattle.std.specs.declared.cmp.Ordering.TheVariants.{Less, Equal, Greater};
ghost use Rattle.algebra.specs.Cubes.{letters, Same, Divides, unit, letter, product, quotient, common, Before};
ghost use Rattle.cubes.specs.Powers.{power, Misses, Bytes, Passes, Divided};
ghost use Rattle.algebra.specs.Rows.{degree, divides_test};

use std::array;
use std::cmp::Ordering;

// How many letters there are. The definitions have the same number as `letters`.
pub const LETTERS: usize = 32;

// A product of letters: the power of each, from letter 0.
#[derive(Clone, Copy, PartialEq, Eq, PartialOrd, Ord, Debug, Default)]
pub struct Cube {
    pub powers: [u8; LETTERS],
}

impl Cube {
    // the empty product, 1
    pub fn one() -> Cube
        ensures { Same (power result) unit }
    {
        Cube {
            powers: [0; LETTERS],
        }
    }

    // the letter j alone, if there is such a letter
    pub fn letter(j: usize) -> Option<Cube>
        ensures { elim result [ Some x ↦ (j < letters) × Same (power x) (letter j) | None ↦ letters ≤ j ] }
    {
        if j >= LETTERS {
            return None;
        }
        let mut powers = [0; LETTERS];
        powers[j] = 1;
        Some(Cube { powers })
    }

    // whether this cube divides the other
    pub fn divides(self, other: Cube) -> bool
        ensures yes { result ≡ true → Divides (power self) (power other) }
        ensures no { result ≡ false → Misses (power self) (power other) }
        ensures test { result ≡ divides_test (power self) (power other) }
    {
        self.powers.iter().zip(&other.powers).all(|(p, q)| p <= q)
    }

    // whether both have the same powers
    pub fn same(self, other: Cube) -> bool
        ensures yes { result ≡ true → Same (power self) (power other) }
        ensures no { result ≡ false → Same (power self) (power other) → ⊥ }
    {
        self == other
    }

    // this cube divided by one that divides it
    // Here and in the product the other cube is read by the letter's number: of what a zip with `iter_mut` wrote nothing is known,
    // and with `array::from_fn` the proof did not close.
    fn cut(self, other: Cube) -> Cube
        requires { Divides (power other) (power self) }
        ensures is { Same (power result) (quotient (power self) (power other)) }
        ensures bytes { Bytes (power self) }
    {
        let mut powers = self.powers;
        for (l, p) in powers.iter_mut().enumerate() {
            *p -= other.powers[l];
        }
        Cube { powers }
    }

    // this cube divided by the other, if that divides it; the test stays an `if`, since the division asks for what it says
    pub fn divide(self, other: Cube) -> Option<Cube>
        ensures { elim result [ Some x ↦ Divided (power self) (power other) (power x) | None ↦ Misses (power other) (power self) ] }
    {
        if other.divides(self) {
            Some(self.cut(other))
        } else {
            None
        }
    }

    // the product, if each of its powers fits a byte
    pub fn multiply(self, other: Cube) -> Option<Cube>
        ensures { elim result [ Some x ↦ Same (power x) (product (power self) (power other)) × Bytes (product (power self) (power other)) | None ↦ Passes (product (power self) (power other)) ] }
    {
        let mut powers = self.powers;
        for (l, p) in powers.iter_mut().enumerate() {
            *p = p.checked_add(other.powers[l])?;
        }
        Some(Cube { powers })
    }

    // the greatest cube that divides both
    pub fn common(self, other: Cube) -> Cube
        ensures is { Same (power result) (common (power self) (power other)) }
        ensures bytes { Bytes (power other) }
    {
        Cube {
            powers: array::from_fn(|l| self.powers[l].min(other.powers[l])),
        }
    }

    // the sum of the powers
    pub fn degree(self) -> u32
        ensures is { result ≡ degree (power self) }
        ensures small { result ≤ 255 * letters }
    {
        self.powers.iter().map(|p| u32::from(*p)).sum()
    }

    // which comes first: compared from letter 0, smaller power first
    pub fn compare(self, other: Cube) -> Ordering
        ensures { elim result [ Less ↦ Before (power self) (power other) | Equal ↦ Same (power self) (power other) | Greater ↦ Before (power other) (power self) ] }
    {
        self.cmp(&other)
    }
}
