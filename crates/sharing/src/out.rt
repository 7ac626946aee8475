ghost use Rattle.std.specs.Prelude.{◌≡◌, ℕ, length, Some, None};
ghost use Rattle.cubes.specs.Powers.{power};
ghost use Rattle.rewriting.specs.Order.{shared_from};
ghost use Rattle.sharing.specs.Out.{AllShared, SharedOut, LetterThere, NotShared};
ghost use Rattle.table.specs.Adding.{source};
ghost use Rattle.table.specs.Of.{style_of};

use cubes::{Cube, Expression, Row, Sign, divided_rows};
use std::array;
use table::{EXPRESSIONS, Table};

// whether expression e has a row that the cube divides
fn has_divided(table: &Table, cube: Cube, e: usize) -> bool
    ensures { result ≡ shared_from (style_of table.now) (power cube) e }
{
    divided_rows(table.rows(e), cube) > 0
}

// Which expressions have a row that the cube divides, as marks, so that the table finds the place of the part itself; factoring, whose kernels
// bear any number, finds the place and hands that on.
fn sources_of(table: &Table, cube: Cube) -> [bool; EXPRESSIONS]
    ensures { (e : ℕ) → source result e ≡ shared_from (style_of table.now) (power cube) e }
{
    array::from_fn(|e| has_divided(table, cube, e))
}

// Every expression that stands with the cube shared out: each row that it divides is divided once and gains the next part's
// letter. None where a row has that letter already, or there is no letter left.
fn share_rows(table: &Table, cube: Cube) -> Option<Table>
    ensures { elim result [ Some t ↦ AllShared (power cube) table.now t | None ↦ LetterThere table.now ] }
{
    let letter = table.standing();
    let mut expressions = table.expressions;
    for x in &mut expressions[..letter] {
        x.share(cube, letter)?;
    }
    Some(Table {
        expressions,
        numerals: table.numerals,
        parts: table.parts,
        order: table.order,
    })
}

// The table with the cube shared out, as a part of one positive row, of all expressions that stand. None where sixteen parts
// stand, or a row has the letter of the next part.
pub fn share_out(table: &Table, cube: Cube) -> Option<Table>
    ensures { elim result [ Some t ↦ SharedOut (power cube) table.now t | None ↦ NotShared table.now ] }
{
    let next = share_rows(table, cube)?;
    let row = Row {
        cube,
        sign: Sign::Plus,
    };
    let Ok(part) = Expression::of(&[row]) else {
        unreachable()
    };
    next.with_part(part, &sources_of(table, cube))
}
