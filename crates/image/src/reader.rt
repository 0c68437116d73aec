ghost use Rattle.std.specs.Prelude.{◌+◌, ◌-◌, ◌*◌, ◌≤◌, length};

pub mod check;
pub mod reads;
pub mod walk;

/// An image that is read: its bytes, the width of its keys and how many entries it has.
#[derive(Clone, Copy, Debug, PartialEq, Eq)]
pub struct Reader<'a> {
    image: &'a [u8],
    width: usize,
    count: usize,
    /// Past the four bytes of the sizes lie as many keys and values as `count` says.
    ghost whole: { count * (width + 8) ≤ length image.now - 4 },
}
