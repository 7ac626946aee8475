// What stands before an operand: how many numerals are held, and how many steps stand before it.
#[derive(Clone, Copy, PartialEq, Eq, Debug)]
pub struct Scope {
    pub held: u8,
    pub before: usize,
}
