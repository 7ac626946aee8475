ghost use Rattle.std.specs.Prelude.{◌≡◌};
ghost use Rattle.opening.specs.Numbers.{enter_refusal_number};

// Why a term is not taken.
#[derive(Clone, Copy, PartialEq, Eq, Debug)]
pub enum EnterRefusal {
    // there is no such formula
    Formula = 1,
    // a coefficient of 0, or one that is too large
    Coefficient = 2,
    // other than eight powers
    Powers = 3,
    // powers with too large a sum
    Degree = 4,
    // the formula has the cube, numeral included
    DoubleCube = 5,
    // the formula has eight terms
    FullFormula = 6,
    // the style has eighty terms
    FullStyle = 7,
    // the coefficient would be a ninth numeral
    NinthNumeral = 8,
}

impl From<EnterRefusal> for u8 {
    ghost from_gives = { λ why n. n ≡ enter_refusal_number why };

    fn from(why: EnterRefusal) -> u8 {
        why as u8
    }
}
