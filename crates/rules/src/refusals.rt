ghost use Rattle.std.specs.Prelude.{◌≡◌};
ghost use Rattle.rules.specs.Numbers.{factor_number, share_number, settle_number, end_number, emit_number};

// Why factor makes no part.
#[derive(Clone, Copy, PartialEq, Eq, Debug)]
pub enum FactorRefusal {
    // a weight outside 1 to 1,000
    Weight = 10,
    // sixteen parts stand
    FullParts = 11,
    // the list has fewer places than there are kernels
    ShortList = 9,
    // no column set saves more than 0
    NoGain = 12,
}

impl From<FactorRefusal> for u8 {
    ghost from_gives = { λ why n. n ≡ factor_number why };

    fn from(why: FactorRefusal) -> u8 {
        why as u8
    }
}

// Why share makes no part.
#[derive(Clone, Copy, PartialEq, Eq, Debug)]
pub enum ShareRefusal {
    // sixteen parts stand
    FullParts = 11,
    // no two rows have a common cube of degree two or more
    NoCube = 12,
}

impl From<ShareRefusal> for u8 {
    ghost from_gives = { λ why n. n ≡ share_number why };

    fn from(why: ShareRefusal) -> u8 {
        why as u8
    }
}

// Why settle does not begin.
#[derive(Clone, Copy, PartialEq, Eq, Debug)]
pub enum SettleRefusal {
    // a weight outside 1 to 1,000
    Weight = 10,
}

impl From<SettleRefusal> for u8 {
    ghost from_gives = { λ why n. n ≡ settle_number why };

    fn from(why: SettleRefusal) -> u8 {
        why as u8
    }
}

// What stopped a settle.
#[derive(Clone, Copy, PartialEq, Eq, Debug)]
pub enum SettleEnd {
    // factor: the list has fewer places than there are kernels
    ShortList = 9,
    // factor or share: sixteen parts stand
    FullParts = 11,
    // share: nothing is left to save
    NothingLeft = 12,
}

impl From<SettleEnd> for u8 {
    ghost from_gives = { λ end n. n ≡ end_number end };

    fn from(end: SettleEnd) -> u8 {
        end as u8
    }
}

// Why emit writes no sheet.
#[derive(Clone, Copy, PartialEq, Eq, Debug)]
pub enum EmitRefusal {
    // the step buffer is shorter than the sheet
    ShortBuffer = 13,
}

impl From<EmitRefusal> for u8 {
    ghost from_gives = { λ why n. n ≡ emit_number why };

    fn from(why: EmitRefusal) -> u8 {
        why as u8
    }
}
