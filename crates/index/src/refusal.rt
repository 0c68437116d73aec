use image::refusal::Refusal;

/// Why an index is not made or loaded. The call then leaves everything as it was.
#[derive(Clone, Copy, Debug, PartialEq, Eq)]
pub enum LoadRefusal {
    /// A size or the length of an array is wrong.
    WrongSizes,
    /// The bytes to be loaded are no image, or hold more entries than there is room for.
    BadImage(Refusal),
}
