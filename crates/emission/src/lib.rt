// The steps of a style in its making order, as theory: what they are worth, that they keep the rules of a sheet, and how many
// there are. Each function does nothing: its contract is a theorem.
#![tactic(auto)]

ghost use Rattle.emission.specs.Promises.{EmitValues, EmitLegal, EmitCounts};

use ring::Ring;

// In every ring: the cells of the steps give values that fit the style, and each output is worth its formula.
pub fn emit_values<R: Ring>()
    ensures { EmitValues R.Ring.ring }
{}

// The steps and outputs keep the rules of a sheet.
pub fn emit_legal()
    ensures { EmitLegal }
{}

// There are exactly as many steps of each sort as the style takes operations.
pub fn emit_counts()
    ensures { EmitCounts }
{}
