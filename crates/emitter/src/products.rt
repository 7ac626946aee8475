ghost use Rattle.std.specs.Prelude.{◌≡◌, ◌+◌, ◌-◌, ◌<◌, ◌++◌, map, length, option_to_list, replicate};
ghost use Rattle.algebra.specs.Counts.{less_one};
ghost use Rattle.algebra.specs.Rows.{degree};
ghost use Rattle.cubes.specs.Powers.{power};
ghost use Rattle.emission.specs.Steps.{letter_operand, letters_in, product_chain};
ghost use Rattle.emitter.specs.Appended.{HasRoom};
ghost use Rattle.emitter.specs.Chained.{Built};
ghost use Rattle.emitter.specs.Multiplied.{Multiplied};

use crate::draft::Draft;
use cubes::Cube;
use sheet::{Operand, Operation};
use table::EXPRESSIONS;

// The operand of a letter, by the results of the expressions made so far.
fn letter_operand(results: &[Operand; EXPRESSIONS], l: usize) -> Operand
    requires { l < 32 }
    ensures { result ≡ letter_operand results.now l }
{
    if l < 8 {
        Operand::Measure(l as u8)
    } else if l < 16 {
        Operand::Numeral((l - 8) as u8)
    } else {
        results[l]
    }
}

impl Draft {
    // Multiplies the product so far, which is none before its first factor, so many times by a factor.
    fn multiply(&mut self, start: Option<Operand>, factor: Operand, times: u8) -> Option<Operand>
        requires { HasRoom self.old (length (option_to_list start) + times - 1) }
        ensures { Multiplied self.old (option_to_list start ++ replicate times factor) result self.new }
    {
        let mut product = start;
        // nothing is indexed: a chain's closure would change the draft, and a proof knows nothing of what it changes
        for _j in 0..times {
            product = match product {
                None => Some(factor),
                Some(made) => Some(self.link(made, Operation::Mul, factor)),
            };
        }
        product
    }

    // The product of a cube's letters, multiplied from the left.
    pub(crate) fn write_product(&mut self, results: &[Operand; EXPRESSIONS], cube: Cube) -> Operand
        requires { HasRoom self.old (less_one (degree (power cube))) }
        ensures { Built self.old (product_chain (map (letter_operand results.now) (letters_in (power cube)))) result self.new }
    {
        let mut product = None;
        for (l, times) in cube.powers.iter().enumerate() {
            product = self.multiply(product, letter_operand(results, l), *times);
        }
        product.unwrap_or(Operand::One)
    }
}
