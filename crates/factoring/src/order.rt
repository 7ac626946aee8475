ghost use Rattle.std.specs.Prelude.{◌≡◌};
ghost use Rattle.std.specs.List.{position};
ghost use Rattle.rewriting.specs.Order.{factored_from};
ghost use Rattle.factoring.specs.Takens.{as_takens};

use crate::taken::TakenKernel;

// whether a kernel is taken from expression e; sharing has marks for the same, since a cube has no list of what it was taken from
fn is_source(taken: &[TakenKernel], e: usize) -> bool
    ensures { result ≡ factored_from (as_takens taken.now) e }
{
    taken.iter().any(|t| t.expression == e)
}

// The place of the first expression that a kernel is taken from.
pub(crate) fn first_source(order: &[usize], taken: &[TakenKernel]) -> Option<usize>
    ensures { result ≡ position (factored_from (as_takens taken.now)) order.now }
{
    order.iter().position(|e| is_source(taken, *e))
}
