use sheet::{Operand, Operation, Step};
use std::alloc::{AllocError, Global};

// The sheet of a²b + abc and 5a + 5c as a file: numeral 5; add 0 2, mul 0 1, mul 33 32, mul 8 32; outputs 34 and 35.
pub const FILE: [u8; 67] = [
    3, 13, 0, 2, 0, 15, 0, 20, 0, 35, 0, 32, 0, 5, 0, 1, 0, 0, 2, 0, 3, 0, 0, 1, 0, 3, 33, 0, 32,
    0, 3, 8, 0, 32, 0, 34, 0, 35, 0, 17, 0, 17, 0, 17, 0, 17, 0, 17, 0, 17, 0, 17, 0, 17, 0, 17, 0,
    17, 0, 17, 0, 17, 0, 17, 0, 17, 0,
];

// A step that the file does not have.
pub const MARK: Step = Step {
    operation: Operation::Neg,
    left: Operand::Measure(7),
    right: Operand::Zero,
};

// The file with one byte changed, cut to a length.
pub fn damaged(heap: Global, at: usize, value: u8, len: usize) -> Result<Vec<u8>, AllocError> {
    let mut bytes = FILE.to_vec(heap)?;
    if at < bytes.len() {
        bytes[at] = value;
    }
    bytes.truncate(len);
    Ok(bytes)
}

pub fn marked(heap: Global, n: usize) -> Result<Vec<Step>, AllocError> {
    vec![in heap; MARK; n]
}

// Whether a buffer still has so many marks and nothing else.
pub fn is_marked(buffer: &[Step], n: usize) -> bool {
    buffer.len() == n && buffer.iter().all(|step| *step == MARK)
}
