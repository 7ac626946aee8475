ghost use Rattle.std.specs.Prelude.{◌≡◌, ◌<◌, min, length, Ok, Err, vec_len};
ghost use Rattle.emitter.specs.Appended.{Appended, HasRoom};
ghost use Rattle.emitter.specs.Wrote.{Wrote, table_steps, table_outputs};

use crate::counts::count_steps;
use crate::draft::Draft;
use sheet::{Operand, Step};
use table::{EXPRESSIONS, FORMULAS, Table};

// How many steps a sheet has at most.
const MOST_STEPS: usize = 2000;

impl Draft {
    // The expressions of a table in its making order, from the first step on; answers the outputs of the formulas.
    fn write_expressions(&mut self, table: &Table) -> [Operand; FORMULAS]
        requires first { self.old.next ≡ 0 }
        requires room { HasRoom self.old (length (table_steps table.now)) }
        ensures steps { Appended self.old (table_steps table.now) self.new }
        ensures outputs { result ≡ table_outputs table.now }
    {
        let mut results = [Operand::Zero; EXPRESSIONS];
        for e in table.order() {
            let made = self.write_expression(&results, table.rows(*e));
            // a table's order may hold any number, and one past the expressions has no rows and no result
            if *e < EXPRESSIONS {
                results[*e] = made;
            }
        }
        let mut outputs = [Operand::Zero; FORMULAS];
        outputs.copy_from_slice(&results[..FORMULAS]);
        outputs
    }
}

// The steps of a table, at the front of the buffer that was handed in; their number, and the outputs of the formulas. The number
// stands beside the buffer, since that keeps its length: the places behind the steps are as they were.
#[derive(Drop)]
pub struct Written {
    pub steps: Vec<Step>,
    pub used: usize,
    pub outputs: [Operand; FORMULAS],
}

// Writes the steps of a table into a buffer. The buffer comes back as it was where it is shorter than the steps, and where there
// are more steps than a sheet has.
pub fn write_steps(table: &Table, buffer: Vec<Step>) -> Result<Written, Vec<Step>>
    ensures { elim result [ Ok w ↦ Wrote table.now buffer.items w.used w.steps.items w.outputs | Err b ↦ (b ≡ buffer) × (min 2000 (vec_len buffer) < length (table_steps table.now)) ] }
{
    let count = count_steps(table);
    if count > MOST_STEPS || count > buffer.len() {
        return Err(buffer);
    }
    let mut draft = Draft {
        steps: buffer,
        next: 0,
    };
    let outputs = draft.write_expressions(table);
    Ok(Written {
        steps: draft.steps,
        used: draft.next as usize,
        outputs,
    })
}
