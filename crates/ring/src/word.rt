ghost use Rattle.std.specs.Prelude.{◌≡◌, Some, decimal, ◌+◌, ◌-◌, ◌*◌, ◌%◌, ◌^◌};
ghost use Rattle.ring.specs.Residue.{Residue};
ghost use Rattle.ring.specs.Kinds.{word_ring, word_meaning};

use crate::Ring;
use std::fmt;

// A whole number modulo 2^32. `Word` and `Wheel` stay two types: any `u32` is a word, and anyone may write
// its field; a wheel is a `u8` that is always below 97. One type over the modulus would ask a proof of every word.
#[derive(Clone, Copy, PartialEq, Eq, Debug)]
pub struct Word {
    pub value: u32,
}

impl From<u32> for Word {
    ghost from_gives = { λ n w. w.value ≡ n };

    fn from(value: u32) -> Word {
        Word { value }
    }
}

// The number below 2^32 that a word stands for, which is what it means.
impl From<Word> for u32 {
    ghost from_gives = { λ w n. n ≡ (word_meaning w).0 };

    fn from(word: Word) -> u32 {
        word.value
    }
}

impl fmt::Display for Word {
    ghost output = { λ w. Some (decimal w.value) };

    fn fmt<W: fmt::Write>(&self, f: &mut fmt::Formatter<W>) -> fmt::Result {
        write!(f, "{}", self.value)
    }
}

impl Word {
    // The steps on the numbers themselves; the calls of the kind say what they mean.

    fn sum(self, other: Word) -> Word
        ensures { result.value ≡ (self.value + other.value) % 2 ^ 32 }
    {
        Word {
            value: self.value.wrapping_add(other.value),
        }
    }

    fn product(self, other: Word) -> Word
        ensures { result.value ≡ (self.value * other.value) % 2 ^ 32 }
    {
        Word {
            value: self.value.wrapping_mul(other.value),
        }
    }

    fn negative(self) -> Word
        ensures { result.value ≡ (2 ^ 32 - self.value) % 2 ^ 32 }
    {
        Word {
            value: self.value.wrapping_neg(),
        }
    }
}

impl Ring for Word {
    ghost Meaning = { Residue (2 ^ 32) };

    ghost ring = { word_ring };

    ghost meaning = { word_meaning };

    fn zero() -> Word {
        Word { value: 0 }
    }

    fn one() -> Word {
        Word { value: 1 }
    }

    fn numeral(n: u16) -> Word {
        Word {
            value: u32::from(n),
        }
    }

    fn add(self, other: Word) -> Word {
        self.sum(other)
    }

    fn multiply(self, other: Word) -> Word {
        self.product(other)
    }

    fn opposite(self) -> Word {
        self.negative()
    }
}
