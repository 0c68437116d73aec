ghost use Rattle.std.specs.Prelude.{◌≡◌};
ghost use Rattle.bwtree.specs.Swaps.{is_open};

use nodes::node::Head;

/// What an operation is asked to do.
#[derive(Clone, Copy, Debug, PartialEq, Eq)]
pub enum Request<K> {
    Lookup(K),
    Insert(K, u64),
    Delete(K),
    /// Replace the chain of the leaf of a key by one frame.
    Consolidate(K),
    /// Cut the leaf of a key in two.
    Split(K),
    ConsolidateRoot,
}

/// What the next step of a seat does, with the numbers that it needs. A snapshot is the head that the operation
/// took from a slot, and compares the slot with in its swap.
// Plain numbers: a phase lies in lent memory, and a step copies it out and writes its seat whole.
#[derive(Clone, Copy, Debug, PartialEq, Eq)]
pub enum Phase {
    Idle,
    RootRead,
    /// `best` is the record of the greatest separator seen that does not stand after the key.
    RootWalk {
        at: Head,
        best: Option<usize>,
    },
    LeafRead {
        slot: usize,
    },
    LeafWalk {
        slot: usize,
        snapshot: Head,
        at: Head,
    },
    Build {
        slot: usize,
        snapshot: Head,
    },
    /// `fresh` is the record or frame to be installed.
    Swap {
        slot: usize,
        snapshot: Head,
        fresh: Head,
    },
    /// The records of the split and of the separator, the new leaf's frame and its slot.
    SplitSwap {
        slot: usize,
        snapshot: Head,
        split: usize,
        separator: usize,
        frame: usize,
        target: usize,
    },
    /// `depth` and `size` are those of the split record as installed.
    PostRead {
        separator: usize,
        depth: usize,
        size: usize,
    },
    PostSwap {
        snapshot: Head,
        separator: usize,
        depth: usize,
        size: usize,
    },
}

impl Phase {
    /// Whether a seat with this phase has an open operation.
    pub(crate) fn is_open(self) -> bool
        ensures { result ≡ is_open self }
    {
        self != Phase::Idle
    }
}

/// Where a seat's next look for a free record, frame and slot begins.
// Not `Sizes`: these are places, those are counts.
#[derive(Clone, Copy, Debug, PartialEq, Eq)]
pub struct Cursors {
    pub records: usize,
    pub frames: usize,
    pub slots: usize,
}

/// The place of one worker: its operation, and the numbers of its swaps that found their slot equal or not.
#[derive(Clone, Copy, Debug, PartialEq, Eq)]
pub struct Seat<K> {
    pub request: Request<K>,
    pub phase: Phase,
    pub cursors: Cursors,
    pub installed: u64,
    pub failed: u64,
}
