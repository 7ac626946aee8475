ghost use Rattle.std.specs.Prelude.{◌≡◌, MatchResult, ◌≢◌};
ghost use Rattle.tablet.specs.Kinds.{kind_name};

use std::str::FromStr;

// The kinds of number that a file can be run over.
#[derive(Clone, Copy, PartialEq, Eq, Debug)]
pub enum Kind {
    Word,
    Wheel,
    // pairs over words
    Pair,
}

// A text that is the name of no kind.
#[derive(Clone, Copy, PartialEq, Eq, Debug)]
pub struct UnknownKind;

// The kind with this name.
impl FromStr for Kind {
    ghost use Rattle.tablet.specs.declared.kind.Kind.{Kind};

    type Err = UnknownKind;

    ghost from_str_gives = { λ name r. MatchResult r (λ k. kind_name k ≡ name) (λ _. (k : Kind) → kind_name k ≢ name) };

    fn from_str(name: &str) -> Result<Kind, UnknownKind> {
        match name {
            "word" => Ok(Kind::Word),
            "wheel" => Ok(Kind::Wheel),
            "pair" => Ok(Kind::Pair),
            _ => Err(UnknownKind),
        }
    }
}
