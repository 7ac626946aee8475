ghost use Rattle.std.specs.Prelude.{ℕ, ◌≤◌};

mod pairs;
mod parts;

pub(crate) use pairs::read_layout;

// How many numerals and steps a file has.
#[derive(Clone, Copy)]
pub(crate) struct Layout {
    pub(crate) held: u8,
    pub(crate) used: u16,
    ghost few_numerals: { held ≤ 8 },
    ghost few_steps: { used ≤ 2000 },
}
