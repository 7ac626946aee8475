ghost use Rattle.std.specs.Prelude.{◌≡◌, ◌^◌, ◌<◌, length};
ghost use Rattle.cubes.specs.Expressions.{rows_of};
ghost use Rattle.cubes.specs.Rows.{as_rows};
ghost use Rattle.table.specs.Of.{style_of};
ghost use Rattle.emitter.specs.Operations.{operations};
ghost use Rattle.emitter.specs.Wrote.{table_steps};

use cubes::Expression;
use table::Table;

// The operations that an expression takes.
fn count_operations(expression: &Expression) -> usize
    ensures is { result ≡ operations (as_rows (rows_of expression.now)) }
    ensures small { result < 2 ^ 34 }
{
    let sums = expression.additions() as usize + expression.negations() as usize;
    expression.multiplications() as usize + sums
}

// The operations that the expression with this number takes, none where there is none.
fn operations_at(table: &Table, e: usize) -> usize
    ensures is { result ≡ operations ((style_of table.now).expression e) }
    ensures small { result < 2 ^ 34 }
{
    table.expressions.get(e).map_or(0, count_operations)
}

// The number of a table's steps, counted along the making order.
pub(crate) fn count_steps(table: &Table) -> usize
    ensures { result ≡ length (table_steps table.now) }
{
    table.order().iter().map(|e| operations_at(table, *e)).sum()
}
