/// A key of an index with the value that it maps to.
// Not `Item` of the crate nodes: images need no nodes, and an item's value may be a leaf's slot.
#[derive(Clone, Copy, Debug, PartialEq, Eq)]
pub struct Entry<K> {
    pub key: K,
    pub value: u64,
}

/// The most entries that an image holds.
pub const MOST_ENTRIES: usize = 4096;
