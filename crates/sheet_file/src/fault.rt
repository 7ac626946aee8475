use sheet::Refusal;

// Why a file is refused, and at which byte.
#[derive(Clone, Copy, PartialEq, Eq, Debug)]
pub(crate) struct Fault {
    pub(crate) why: Refusal,
    pub(crate) place: usize,
}
