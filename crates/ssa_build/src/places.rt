//! Where the φs of a full form stand.

use crate::full::FullForm;
use block_forms::Block;

/// The block and the slot of a φ of the full form.
#[derive(Clone, Copy)]
pub(crate) struct PhiPlace {
    pub(crate) block: u32,
    pub(crate) slot: u32,
}

/// The φs of a full form over its blocks, each by its place.
#[derive(Clone, Copy)]
pub(crate) struct Joins<'a> {
    pub(crate) full: &'a FullForm,
    pub(crate) blocks: &'a [Block],
    pub(crate) places: &'a [PhiPlace],
}
