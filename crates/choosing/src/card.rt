use crate::columns::Columns;

// What the choice looks at of a kernel: the degree of its co-kernel, and its columns in the order of its rows.
#[derive(Clone, Copy)]
pub struct Card {
    pub degree: u16,
    pub columns: Columns,
}
