// How the values of the ring kinds are written on the command line, and how they are printed.
#![tactic(auto)]

ghost use Rattle.std.specs.Prelude.{◌≡◌, ℕ, ◌^◌, List, ◌++◌, string_bytes, decimal, MatchOption, MatchResult, Some, refl};
ghost use Rattle.spelling.specs.Texts.{Signed, Paired, spaced};
ghost use Rattle.spelling.specs.Spellings.{signed_one, paired_one};
ghost use Rattle.spelling.specs.WheelSpelledLemmas.{same_wheel};

use numbers::signed;
use ring::{Pair, Ring, Wheel, Word};
use std::alloc::AllocError;
use std::fmt::Display;

mod numbers;

// A ring kind whose values can be read and printed.
pub trait Spelled: Ring + Display {
    // the text is a spelling of the value
    ghost spells: { List ℕ → Self → Type 0 };

    // the bytes that print the value
    ghost shows: { Self → List ℕ };

    // Not `FromStr`: the contract says exactly which texts spell a value, and an error would say no more than that.
    fn read(text: &str) -> Option<Self>
        ensures { MatchOption result ((x : Self) → spells text.now x → ⊥) (λ x. spells text.now x) };

    // a text spells one value at most
    ghost unique: { (text : List ℕ) (x y : Self) → spells text x → spells text y → x ≡ y };

    // a value is printed as those bytes
    ghost shown: { (x : Self) → Self.output x ≡ Some (shows x) };

    // Adds the printed value to the text, or leaves the text as it was.
    final fn print(self, out: &mut String) -> Result<(), AllocError>
        ensures { MatchResult result (λ _. string_bytes out.new ≡ string_bytes out.old ++ shows self) (λ _. string_bytes out.new ≡ string_bytes out.old) }
    {
        let value = self;
        let text = format!(in *out.allocator(); "{value}")?;
        out.push_str(text.as_str())
    }
}

impl Spelled for Word {
    ghost spells = { λ text w. Signed (2 ^ 32) text w.value };

    ghost shows = { λ w. decimal w.value };

    ghost unique = { λ text x y p q i. record { value = signed_one p q i } };

    ghost shown = { λ _. refl };

    fn read(text: &str) -> Option<Word> {
        let x = signed(text, 0x1_0000_0000)?;
        Some(Word { value: x as u32 })
    }
}

// Like the words' in shape; the two kinds stay two types (crates/ring/src/word.rt).
impl Spelled for Wheel {
    ghost spells = { λ text w. Signed 97 text w.value };

    ghost shows = { λ w. decimal w.value };

    ghost unique = { λ text x y p q. same_wheel x y (signed_one p q) };

    ghost shown = { λ _. refl };

    fn read(text: &str) -> Option<Wheel> {
        let x = signed(text, 97)?;
        Some(Wheel::of(x as u32))
    }
}

// The pair of the words that the two texts spell.
fn pair_of(left: &str, right: &str) -> Option<Pair<Word>>
    ensures { MatchOption result ((x y : ℕ) → Signed (2 ^ 32) left.now x → Signed (2 ^ 32) right.now y → ⊥) (λ p. Signed (2 ^ 32) left.now p.value.value × Signed (2 ^ 32) right.now p.rate.value) }
{
    let value = Word::read(left)?;
    let rate = Word::read(right)?;
    Some(Pair { value, rate })
}

impl Spelled for Pair<Word> {
    ghost spells = { λ text p. Paired text p.value.value p.rate.value };

    ghost shows = { λ p. spaced p.value.value p.rate.value };

    ghost unique = { λ text x y p q i. record { value = record { value = (paired_one p q).0 i }; rate = record { value = (paired_one p q).1 i } } };

    ghost shown = { λ _. refl };

    fn read(text: &str) -> Option<Pair<Word>> {
        let (left, right) = text.split_once(':')?;
        pair_of(left, right)
    }
}
