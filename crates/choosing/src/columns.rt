use crate::column::Column;
use few::Few;

// At most eight columns: a kernel has one for each row of an expression at most.
pub type Columns = Few<Column, 8>;
