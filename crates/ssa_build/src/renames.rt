//! What the names of a full form become.

use crate::full::FullForm;
use block_forms::Block;

/// A full form over its blocks, the names that its names are merged into, and the new numbers of these.
#[derive(Clone, Copy)]
pub(crate) struct Renaming<'a> {
    pub(crate) full: &'a FullForm,
    pub(crate) blocks: &'a [Block],
    pub(crate) into: &'a [u32],
    pub(crate) numbers: &'a [u32],
}
