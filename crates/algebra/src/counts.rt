ghost use Rattle.algebra.specs.Laws.{CountLaws};

// Degrees of products, quotients, divisors and common cubes; multiplications, additions and negations in plain words.
pub fn count_laws()
    ensures { CountLaws }
{}
