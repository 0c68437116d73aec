//! The lines that are printed.

ghost use Rattle.std.specs.Prelude.{◌≡◌, IfOk, Some, string_bytes};
ghost use Rattle.inspect.specs.Lines.{entry_line, header_line, right_aligned};

use std::alloc::{AllocError, Global};
use std::fmt;

/// The text after as many spaces as it lacks to the width.
// By hand, since a column is as wide as its longest text has bytes, and the width of a format counts characters.
pub fn right_aligned(heap: Global, text: &str, width: usize) -> Result<String, AllocError>
    ensures { IfOk result (λ aligned. string_bytes aligned ≡ right_aligned width text.now) }
{
    let mut aligned = " ".repeat(heap, width.saturating_sub(text.len()))?;
    aligned.push_str(text)?;
    Ok(aligned)
}

/// How wide the columns of places and keys are.
#[derive(Clone, Copy, Debug, PartialEq, Eq)]
pub struct Columns {
    pub place: usize,
    pub key: usize,
}

impl Columns {
    /// The line of an entry: its place, its key as shown, and its value.
    pub fn entry_line(
        &self,
        heap: Global,
        place: usize,
        key: &str,
        value: u64,
    ) -> Result<String, AllocError>
        ensures { IfOk result (λ line. string_bytes line ≡ entry_line self.now.place self.now.key place key.now value) }
    {
        let place = place.to_string(heap)?;
        let place = right_aligned(heap, place.as_str(), self.place)?;
        let key = right_aligned(heap, key, self.key)?;
        format!(in heap; "{place}  {key}  {value}\n")
    }
}

/// The line above an image's entries.
#[derive(Clone, Copy, Debug, PartialEq, Eq)]
pub struct Header<'a> {
    pub name: &'a str,
    pub bytes: usize,
    pub width: usize,
    pub entries: usize,
}

impl<'a> fmt::Display for Header<'a> {
    ghost output = { λ line. Some (header_line line.name.now line.bytes line.width line.entries) };

    fn fmt<W: fmt::Write>(&self, f: &mut fmt::Formatter<W>) -> fmt::Result {
        let Header {
            name,
            bytes,
            width,
            entries,
        } = *self;
        writeln!(f, "{name}: bytes {bytes}, width {width}, entries {entries}")
    }
}
