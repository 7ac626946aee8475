ghost use Rattle.std.specs.Prelude.{◌≡◌};
ghost use Rattle.sheet.specs.Numbers.{refusal_number};

use crate::step::Step;

// Why numerals, steps and outputs do not make a sheet; the discriminants are the numbers of the refusals.
#[derive(Clone, Copy, PartialEq, Eq, Debug)]
pub enum Refusal {
    // more than eight numerals or 2,000 steps, or a file with a wrong header
    Layout = 18,
    // a step buffer shorter than the steps
    ShortBuffer = 19,
    // a numeral below 2
    SmallNumeral = 20,
    IllegalStep = 21,
    IllegalOutput = 22,
}

impl From<Refusal> for u8 {
    ghost from_gives = { λ why n. n ≡ refusal_number why };

    fn from(why: Refusal) -> u8 {
        why as u8
    }
}

// A refusal, with the step buffer as it was handed in.
#[derive(Drop)]
pub struct Refused {
    pub why: Refusal,
    pub buffer: Vec<Step>,
}
