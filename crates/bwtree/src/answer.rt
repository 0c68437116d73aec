ghost use Rattle.std.specs.Prelude.{◌≡◌};
ghost use Rattle.bwtree.specs.Answers.{end_number, refusal_number};

/// How an operation ended.
#[derive(Clone, Copy, Debug, PartialEq, Eq)]
pub enum End {
    Found,
    Missing,
    Present,
    Stored,
    Removed,
    Consolidated,
    /// There was nothing to consolidate.
    Tidy,
    Split,
    /// The leaf has too few entries to be split.
    Small,
    /// The leaf has 64 entries.
    LeafFull,
    TooFewRecords,
    NoFrame,
    NoSlot,
}

impl End {
    /// The number of a refused ending.
    // No TryFrom: that an ending has no number is no error.
    pub fn number(self) -> Option<u8>
        ensures { result ≡ end_number self }
    {
        match self {
            End::LeafFull => Some(11),
            End::TooFewRecords => Some(12),
            End::NoFrame => Some(13),
            End::NoSlot => Some(14),
            _ => None,
        }
    }
}

/// An ending with its value, and depth and size of the head that the operation last read or installed.
#[derive(Clone, Copy, Debug, PartialEq, Eq)]
pub struct Ending {
    pub end: End,
    /// By the rules a number in every ending, 0 where the end has no value to tell.
    pub value: u64,
    pub depth: usize,
    pub size: usize,
}

/// A seat's counters, and how many records of the whole index are free, in a chain that a slot leads to, held by an
/// operation, and waiting.
#[derive(Clone, Copy, Debug, PartialEq, Eq)]
pub struct Report {
    pub installed: u64,
    pub failed: u64,
    pub free: usize,
    pub chained: usize,
    pub held: usize,
    pub waiting: usize,
}

/// What a call answers.
#[derive(Clone, Copy, Debug, PartialEq, Eq)]
pub enum Answer {
    Begun,
    Going,
    Ended(Ending),
    Reported(Report),
}

// Not the refusals of images: a call of an index and the bytes of an image are refused for causes of their own.
/// Why a call is turned down, with the number by which that is known. All but `Impossible` leave everything as it was.
#[derive(Clone, Copy, Debug, PartialEq, Eq)]
pub enum Refusal {
    /// The seat is above 3.
    NoSuchSeat = 1,
    SeatOpen = 2,
    SeatIdle = 3,
    /// A size or the length of an array is wrong.
    WrongSizes = 4,
    /// The memory has numbers that an index never writes.
    Impossible = 15,
}

impl From<Refusal> for u8 {
    ghost from_gives = { λ refusal number. number ≡ refusal_number refusal };

    fn from(refusal: Refusal) -> u8 {
        refusal as u8
    }
}
