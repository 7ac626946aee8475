ghost use Rattle.std.specs.Prelude.{◌≡◌, ◌≤◌, length};

use cubes::Expression;
use sheet::Numerals;

// How many formulas a style has, how many parts at most, and how many expressions in all.
pub const FORMULAS: usize = 16;

pub const PARTS: usize = 16;

pub const EXPRESSIONS: usize = 32;

// The expressions of a style by number, the formulas first and then the parts, of which the first `parts` stand; the numerals
// by first entry; and the making order, which is the first `FORMULAS + parts` places of `order`.
// The expressions lie in an array with a count, in a plain struct (a rule of the project): a part's place is its number and its letter, every
// number below 32 has an expression, and `parts` is the number that the definition of a style has. The order lies in an array
// too: the length of a short list would have to agree with `parts`.
#[derive(Clone, Copy)]
pub struct Table {
    pub expressions: [Expression; EXPRESSIONS],
    pub numerals: Numerals,
    pub parts: usize,
    pub order: [usize; EXPRESSIONS],
    ghost all: { length expressions ≡ 32 },
    ghost few: { parts ≤ 16 },
    ghost places: { length order ≡ 32 },
}
