ghost use Rattle.std.specs.Prelude.{◌≡◌};
ghost use Rattle.runner.specs.Numbers.{run_refusal_number};

// Why a sheet is not run, by its number.
#[derive(Clone, Copy, PartialEq, Eq, Debug)]
pub enum RunRefusal {
    // other than eight measures
    Measures = 14,
    // a bench shorter than the sheet
    ShortBench = 15,
    // other than sixteen output places
    OutputPlaces = 16,
}

impl From<RunRefusal> for u8 {
    ghost from_gives = { λ why n. n ≡ run_refusal_number why };

    fn from(why: RunRefusal) -> u8 {
        why as u8
    }
}
