ghost use Rattle.std.specs.Prelude.{◌≡◌};
ghost use Rattle.bwtree.specs.Steps.{lawful_sizes};

/// How many slots, delta records and frames an index has.
#[derive(Clone, Copy, Debug, PartialEq, Eq)]
pub struct Sizes {
    pub slots: usize,
    pub records: usize,
    pub frames: usize,
}

impl Sizes {
    /// Whether an index may have these sizes.
    pub fn are_lawful(self) -> bool
        ensures { result ≡ lawful_sizes self }
    {
        (2..=65).contains(&self.slots)
            && (1..=4096).contains(&self.records)
            && (2..=256).contains(&self.frames)
    }
}
