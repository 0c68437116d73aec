/// The number of a record or of a frame. A chain is named by its head.
// Numbers, no Box: records and frames lie in pools that the caller lends, and nothing lies on the heap.
#[derive(Clone, Copy, Debug, PartialEq, Eq)]
pub enum Head {
    Record(usize),
    Frame(usize),
}

/// A place of the mapping table: empty, or the head of the root or of a leaf.
#[derive(Clone, Copy, Debug, PartialEq, Eq)]
pub struct Slot {
    pub head: Option<Head>,
}

/// What a delta record does to the items below it.
#[derive(Clone, Copy, Debug, PartialEq, Eq)]
pub enum Kind {
    Insertion,
    Deletion,
    /// Only keys before the record's own stay.
    Split,
    /// In the root: keys from the record's own on are in the leaf of its slot, or right of it.
    Separator,
}

/// Which of the two levels of the tree a chain belongs to.
#[derive(Clone, Copy, Debug, PartialEq, Eq)]
pub enum Level {
    Root,
    Leaf,
}

/// What every node carries of the chain that it heads.
#[derive(Clone, Copy, Debug, PartialEq, Eq)]
pub struct Attributes<K> {
    /// The least key that may stand in the leaf; absent in the first leaf and in the root.
    pub low: Option<K>,
    /// The first key past the leaf; absent in the last leaf and in the root.
    pub high: Option<K>,
    /// The slot of the next leaf, the side link; absent where the high key is.
    pub right: Option<usize>,
    /// How many items the chain's replay has.
    pub size: usize,
    /// How many records stand above the frame.
    pub depth: usize,
}

/// A change put on a head, with the attributes of the chain from here on.
#[derive(Clone, Copy, Debug, PartialEq, Eq)]
pub struct Delta<K> {
    pub kind: Kind,
    pub key: K,
    /// The value put in, the value removed, or a leaf's slot.
    pub value: u64,
    pub next: Head,
    pub attributes: Attributes<K>,
}

/// A place of the record pool. Freeing sets the flag alone: a snapshot may still read the delta.
#[derive(Clone, Copy, Debug, PartialEq, Eq)]
pub struct Record<K> {
    pub free: bool,
    pub delta: Delta<K>,
}

/// What a frame is in use for.
#[derive(Clone, Copy, Debug, PartialEq, Eq)]
pub enum FrameState {
    Free,
    /// It lies under a head, or an operation holds it.
    Used,
    /// It was replaced, with the `records` records from `head` down to it, and all of them wait for the marked seats.
    Waiting {
        // An array of marks, one for each of the four seats: there is no heap for a set.
        seats: [bool; 4],
        head: Head,
        records: usize,
    },
}

/// A frame of 0 to 64 items; frame f owns places 64f to 64f + 63 of the item arrays.
#[derive(Clone, Copy, Debug, PartialEq, Eq)]
pub struct Frame<K> {
    pub state: FrameState,
    pub attributes: Attributes<K>,
}

/// A key beside its value, or beside a leaf's slot in the root.
#[derive(Clone, Copy, Debug, PartialEq, Eq)]
pub struct Item<K> {
    pub key: K,
    pub value: u64,
}
