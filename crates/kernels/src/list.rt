ghost use Rattle.std.specs.Prelude.{◌+◌, ◌^◌, ◌≤◌, length, Ok, Err};
ghost use Rattle.cubes.specs.Expressions.{rows_of};
ghost use Rattle.kernels.specs.Joins.{Joined, JoinedFrom, OneJoinedList};
ghost use Rattle.kernels.specs.Kernels.{KernelList, OneList};
ghost use Rattle.kernels.specs.Lists.{Written, Filled, TooMany};

use crate::node::Node;
use crate::search::Listing;
use crate::{Kernel, KernelRefusal};
use cubes::Expression;
use std::slice;

// Lists the kernels of several expressions, numbered from `first`, one list behind the other, from
// the first place on and as far as there is room, and says how many there are.
fn run_all(first: usize, expressions: &[Expression], out: &mut [Kernel]) -> usize
    requires { first + length expressions.now ≤ 2 ^ 64 }
    ensures { Written (JoinedFrom first expressions.now) 0 out.old out.new result }
{
    let mut listing = Listing { out, count: 0 };
    for (k, e) in expressions.iter().enumerate() {
        let Some(node) = Node::first(e) else {
            continue;
        };
        listing.search(first + k, &node, 0);
    }
    listing.count
}

// Lists the kernels of several expressions, numbered from `first`. The first run counts, the second writes.
fn list(
    first: usize,
    expressions: &[Expression],
    out: &mut [Kernel],
) -> Result<usize, KernelRefusal>
    requires { first + length expressions.now ≤ 2 ^ 64 }
    ensures { elim result [ Ok n ↦ Filled (JoinedFrom first expressions.now) out.old out.new n | Err _ ↦ TooMany (JoinedFrom first expressions.now) out.old out.new ] }
{
    let mut none: [Kernel; 0] = [];
    let n = run_all(first, expressions, &mut none);
    if n > out.len() {
        return Err(KernelRefusal::ShortList);
    }
    Ok(run_all(first, expressions, out))
}

// Lists every kernel of an expression once, ascending by co-kernel, and says how many there are.
pub fn kernels_of(number: usize, e: &Expression, out: &mut [Kernel]) -> Result<usize, KernelRefusal>
    ensures { elim result [ Ok n ↦ Filled (KernelList number (rows_of e.now)) out.old out.new n | Err _ ↦ TooMany (KernelList number (rows_of e.now)) out.old out.new ] }
{
    list(number, slice::from_ref(e), out)
}

// Lists the kernels of several expressions, the first one's first: each expression by its place.
pub fn kernels_of_all(
    expressions: &[Expression],
    out: &mut [Kernel],
) -> Result<usize, KernelRefusal>
    ensures { elim result [ Ok n ↦ Filled (Joined expressions.now) out.old out.new n | Err _ ↦ TooMany (Joined expressions.now) out.old out.new ] }
{
    list(0, expressions, out)
}

// The list of an expression's kernels is unique. (Two theorems: here the expression may have any number, several are numbered from 0.)
pub fn one_list_only()
    ensures { OneList }
{}

// So is that of several expressions.
pub fn one_joined_list_only()
    ensures { OneJoinedList }
{}
