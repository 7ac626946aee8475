ghost use Rattle.std.specs.Prelude.{◌≡◌, ◌≤◌, length};
ghost use Rattle.algebra.specs.Counts.{multiplications};
ghost use Rattle.cubes.specs.Rows.{as_rows};
ghost use Rattle.few.specs.Listed.{listed};
ghost use Rattle.emission.specs.Steps.{products, summands, expression_steps, expression_result};
ghost use Rattle.emitter.specs.Appended.{Appended, HasRoom};
ghost use Rattle.emitter.specs.Operations.{operations};
ghost use Rattle.emitter.specs.Terms.{signed};

use crate::draft::Draft;
use crate::sums::Summand;
use cubes::{ROWS, Row};
use few::Few;
use sheet::Operand;
use table::EXPRESSIONS;

impl Draft {
    // The products of the rows, one after another; answers the term of each.
    fn write_products(
        &mut self,
        results: &[Operand; EXPRESSIONS],
        rows: &[Row],
    ) -> Few<Summand, ROWS>
        requires eight { length rows.now ≤ 8 }
        requires room { HasRoom self.old (multiplications (as_rows rows.now)) }
        ensures steps { Appended self.old (products results.now self.old.next (as_rows rows.now)) self.new }
        ensures terms { signed (listed result) ≡ summands results.now self.old.next (as_rows rows.now) }
    {
        let mut terms = Few::new();
        for row in rows {
            let term = Summand {
                sign: row.sign,
                operand: self.write_product(results, row.cube),
            };
            terms.push(term).unwrap();
        }
        terms
    }

    // An expression of at most eight rows: its products, then their sum.
    pub(crate) fn write_expression(
        &mut self,
        results: &[Operand; EXPRESSIONS],
        rows: &[Row],
    ) -> Operand
        requires eight { length rows.now ≤ 8 }
        requires room { HasRoom self.old (operations (as_rows rows.now)) }
        ensures result { result ≡ expression_result results.now self.old.next (as_rows rows.now) }
        ensures steps { Appended self.old (expression_steps results.now self.old.next (as_rows rows.now)) self.new }
    {
        let terms = self.write_products(results, rows);
        self.write_sum(terms.as_slice())
    }
}
