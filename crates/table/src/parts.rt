ghost use Rattle.std.specs.Prelude.{◌≡◌, ◌+◌, ◌<◌, ◌≤◌, ◌⊎◌, length, take, Some, None};
ghost use Rattle.std.specs.List.{insert, position};
ghost use Rattle.cubes.specs.Expressions.{rows_of};
ghost use Rattle.table.specs.Adding.{AddsPart, AddsPartAt, source};
ghost use Rattle.table.specs.Of.{standing_in};

use crate::table::{EXPRESSIONS, PARTS, Table};
use cubes::Expression;

// whether expression e is marked
fn is_source(sources: &[bool], e: usize) -> bool
    ensures { result ≡ source sources.now e }
{
    sources.get(e).copied().unwrap_or(false)
}

// the place of the first marked expression
fn first_source(order: &[usize], sources: &[bool]) -> Option<usize>
    ensures { result ≡ position (source sources.now) order.now }
{
    order.iter().position(|e| is_source(sources, *e))
}

// The order of the first `number` expressions with this number at a place, before those that stood there and behind.
fn put_at(order: [usize; EXPRESSIONS], number: usize, at: usize) -> [usize; EXPRESSIONS]
    requires { (at ≤ number) × (number < 32) × (length order ≡ 32) }
    ensures long { length result ≡ 32 }
    ensures put { take (number + 1) result ≡ insert (take number order) at number }
{
    let mut order = order;
    order[number] = number;
    order[at..=number].rotate_right(1);
    order
}

impl Table {
    // The table with one part more, at a place of the making order, before those that stood there and behind; none where
    // sixteen parts stand, or the order has no such place.
    pub fn with_part_at(&self, part: Expression, at: usize) -> Option<Table>
        ensures { elim result [ Some t ↦ AddsPartAt at (rows_of part) self.now t | None ↦ (self.now.parts ≡ 16) ⊎ (standing_in self.now < at) ] }
    {
        let number = self.standing();
        if self.parts == PARTS || at > number {
            return None;
        }
        let order = put_at(self.order, number, at);
        let mut expressions = self.expressions;
        expressions[number] = part;
        Some(Table {
            expressions,
            numerals: self.numerals,
            parts: self.parts + 1,
            order,
        })
    }

    // The table with one part more, which is put just before the first expression in the making order that is marked as one of
    // its sources; none where sixteen parts stand.
    pub fn with_part(&self, part: Expression, sources: &[bool]) -> Option<Table>
        ensures { elim result [ Some t ↦ AddsPart (source sources.now) (rows_of part) self.now t | None ↦ self.now.parts ≡ 16 ] }
    {
        let at = first_source(self.order(), sources).unwrap_or(self.standing());
        self.with_part_at(part, at)
    }
}
