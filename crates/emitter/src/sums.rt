ghost use Rattle.std.specs.Prelude.{◌≡◌, ◌+◌, not, length, position};
ghost use Rattle.std.specs.Fn.{FnReturnsAt};
ghost use Rattle.sheet.specs.declared.operation.Operation.{Operation};
ghost use Rattle.cubes.specs.Rows.{minus};
ghost use Rattle.emission.specs.Steps.{negated, signed_link, sum_chain};
ghost use Rattle.emitter.specs.declared.sums.Summand.{Summand};
ghost use Rattle.emitter.specs.Appended.{HasRoom};
ghost use Rattle.emitter.specs.Chained.{Built, Chained};
ghost use Rattle.emitter.specs.Terms.{Chooses, links_by, operands, signed, signed_one};

use crate::draft::Draft;
use cubes::Sign;
use sheet::{Operand, Operation};

// A row's sign, and the operand of its product.
#[derive(Clone, Copy, Default)]
pub(crate) struct Summand {
    pub(crate) sign: Sign,
    pub(crate) operand: Operand,
}

impl Summand {
    // The operation that joins the term to those before it.
    fn operation(&self) -> Operation
        ensures { result ≡ (signed_link (signed_one self.now)).0 }
    {
        match self.sign {
            Sign::Plus => Operation::Add,
            Sign::Minus => Operation::Sub,
        }
    }
}

// The place of the first positive term.
fn first_positive(terms: &[Summand]) -> Option<usize>
    ensures { result ≡ position (λ t. not (minus t.sign)) terms.now }
{
    terms.iter().position(|term| term.sign == Sign::Plus)
}

impl Draft {
    // A step with each of the terms, one on the result of the other, by the operation that is chosen for the term.
    fn link_all<F: Fn(&Summand) -> Operation>(
        &mut self,
        start: Operand,
        terms: &[Summand],
        operation: F,
    ) -> Operand
        requires callable { F.IsAlwaysCallable operation }
        requires room { HasRoom self.old (length terms.now) }
        ensures { (of : Summand → Operation) → Chooses (FnReturnsAt F.Fn operation) of → Chained self.old start (links_by of terms.now) result self.new }
    {
        let mut made = start;
        for term in terms {
            made = self.link(made, operation(term), term.operand);
        }
        made
    }

    // The sum of terms that are all negative: added from the first, and then negated.
    fn write_negated(&mut self, terms: &[Summand]) -> Operand
        requires { HasRoom self.old (length terms.now) }
        ensures { Built self.old (negated (operands terms.now)) result self.new }
    {
        let Some((first, rest)) = terms.split_first() else {
            return Operand::Zero;
        };
        let added = self.link_all(first.operand, rest, |_| Operation::Add);
        self.link(added, Operation::Neg, Operand::Zero)
    }

    // The sum of terms, from the first positive one.
    pub(crate) fn write_sum(&mut self, terms: &[Summand]) -> Operand
        requires { HasRoom self.old (length (sum_chain (signed terms.now)).links) }
        ensures { Built self.old (sum_chain (signed terms.now)) result self.new }
    {
        let Some(first) = first_positive(terms) else {
            return self.write_negated(terms);
        };
        let taken = self.link_all(terms[first].operand, &terms[..first], |_| Operation::Sub);
        self.link_all(taken, &terms[first + 1..], Summand::operation)
    }
}
