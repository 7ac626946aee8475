ghost use Rattle.rewriting.specs.Promises.{CandidatesFair, NoPairNoCube, PairsShare};

// Every column set takes what factor may take, and its saving, counted before and after, is as the formulas say and never below zero.
pub fn candidates_fair()
    ensures { CandidatesFair }
{}

// Two rows with a common cube are what share may take; where there are none, no cube of degree two or more divides two rows.
pub fn pairs_share()
    ensures pairs { PairsShare }
    ensures none { NoPairNoCube }
{}
