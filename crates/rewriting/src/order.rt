ghost use Rattle.rewriting.specs.Promises.{FirstOrdered, FactorStaysOrdered, PressesStayOrdered, ShareStaysOrdered};

// The making order: each expression once, parts before what uses them; at first, and after factor, share
// and any number of them.
pub fn stays_ordered()
    ensures first { FirstOrdered }
    ensures factor { FactorStaysOrdered }
    ensures share { ShareStaysOrdered }
    ensures presses { PressesStayOrdered }
{}
