//! How the parts of a goto form are counted.

/// How many parameters, slots and blocks there are, and which block is the entry.
#[derive(Clone, Copy)]
pub(crate) struct Layout {
    pub(crate) params: usize,
    pub(crate) slots: usize,
    pub(crate) blocks: usize,
    pub(crate) entry: usize,
}
