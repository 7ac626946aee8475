ghost use Rattle.rewriting.specs.Promises.{FactorStaysClosed, PressesStayClosed, ShareStaysClosed, TakesDistinct};

// Factor, share and any number of them lead from a closed style to a closed style: at most sixteen parts and eight
// rows, distinct cubes, letters that stand, degrees of at most 25, parts with a positive row.
pub fn stays_closed()
    ensures factor { FactorStaysClosed }
    ensures share { ShareStaysClosed }
    ensures presses { PressesStayClosed }
{}

// Columns taken in a closed style are distinct.
pub fn columns_distinct()
    ensures { TakesDistinct }
{}
