ghost use Rattle.std.specs.Prelude.{◌<◌};

mod calls;

// A whole number modulo 97, by the number below 97 that it leaves.
#[derive(Clone, Copy, PartialEq, Eq, Debug)]
pub struct Wheel {
    value: u8,
    ghost ok: { value < 97 },
}
