ghost use Rattle.std.specs.Prelude.{◌≡◌, length};

mod calls;

// Which of the style's 256 places for rows are covered.
// It is made anew for each set of columns, so it is kept in fixed memory: a set on the heap would cost an allocation each time.
#[derive(Clone, Copy)]
pub(crate) struct Covered {
    marks: [bool; 256],
    ghost all: { length marks ≡ 256 },
}
