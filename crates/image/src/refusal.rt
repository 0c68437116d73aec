ghost use Rattle.std.specs.Prelude.{◌≡◌};
ghost use Rattle.image.specs.Refusals.{number_of_refusal};

/// Why bytes are no image, or why an image is not written.
#[derive(Clone, Copy, Debug, PartialEq, Eq)]
pub enum Refusal {
    /// The buffer is shorter than the image, which has that many bytes.
    Buffer { needed: usize },
    /// The bytes are not as many as an image has.
    Length,
    /// The keys are not as wide as the kind's.
    Width,
    /// There are more entries than an image may hold.
    Count,
    /// The key at that place does not stand after the one before it.
    Order { place: usize },
}

/// The number by which a refusal is known outside of the program.
impl From<Refusal> for u8 {
    ghost from_gives = { λ refusal number. number ≡ number_of_refusal refusal };

    fn from(refusal: Refusal) -> u8 {
        match refusal {
            Refusal::Buffer { .. } => 6,
            Refusal::Length => 7,
            Refusal::Width => 8,
            Refusal::Count => 9,
            Refusal::Order { .. } => 10,
        }
    }
}
