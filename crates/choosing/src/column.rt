// A column of a kernel: the number of its signed cube, the place of the row behind it, and its degree.
//
// Two columns have the same number if they are the same signed cube, and only then.
// Rows are counted through the style, eight to an expression.
#[derive(Clone, Copy, PartialEq, Eq, Debug, Default)]
pub struct Column {
    pub name: usize,
    pub row: u8,
    pub degree: u16,
}
