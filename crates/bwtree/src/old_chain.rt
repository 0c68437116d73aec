use nodes::node::{Attributes, Head};

/// The chain that an operation builds on: the slot and the head of its snapshot, and that head's attributes.
#[derive(Clone, Copy, Debug, PartialEq, Eq)]
pub struct OldChain<K> {
    pub slot: usize,
    pub head: Head,
    pub attributes: Attributes<K>,
}
