//! The lines of an image's entries, in aligned columns.

ghost use Rattle.std.specs.Prelude.{◌≡◌, IfOk, string_bytes};
ghost use Rattle.image.specs.Read.{entries_read};
ghost use Rattle.inspect.specs.Lines.{entry_line};
ghost use Rattle.inspect.specs.Table.{key_column, lines_from, table_of};

use crate::lines::Columns;
use crate::shown::Shown;
use image::entry::Entry;
use image::reader::Reader;
use keys::byte_form::ByteForm;
use std::alloc::{AllocError, Global};
use std::fmt::Write;

/// The entries that a reader reads, none where its keys are not as wide as the kind's.
pub fn entries<K: ByteForm>(heap: Global, reader: &Reader) -> Result<Vec<Entry<K>>, AllocError>
    ensures { IfOk result (λ entries. entries.items ≡ entries_read K.ByteForm.WIDTH K.ByteForm.key_of reader.now) }
{
    // Not filter_map: it looks for each next entry in a loop of its own, which costs more than reading the entry.
    (0..reader.len())
        .map_while(|place| reader.decoded(place))
        .collect(heap)
}

/// A key as the kind shows it.
// With room for two digits of each byte of a form, all that a token needs: a text that grows piece by piece is moved at each
// growth. A long expiry key still grows once.
fn shown<K: Shown>(heap: Global, key: &K) -> Result<String, AllocError>
    ensures { IfOk result (λ text. string_bytes text ≡ K.Shown.shown_as key.now) }
{
    let mut text = String::with_capacity(heap, K::WIDTH.saturating_mul(2))?;
    write!(text, "{key}")?;
    Ok(text)
}

/// The width of the widest key as shown.
fn key_column<K: Shown>(heap: Global, entries: &[Entry<K>]) -> Result<usize, AllocError>
    ensures { IfOk result (λ width. width ≡ key_column K.Shown.shown_as entries.now) }
{
    let mut width: usize = 0;
    // A for, since making a text can fail.
    for entry in entries {
        let key = shown(heap, &entry.key)?;
        width = width.max(key.as_str().len());
    }
    Ok(width)
}

impl Columns {
    /// The line of an entry, its key as the kind shows it.
    fn line_of<K: Shown>(
        &self,
        heap: Global,
        place: usize,
        entry: &Entry<K>,
    ) -> Result<String, AllocError>
        ensures { IfOk result (λ line. string_bytes line ≡ entry_line self.now.place self.now.key place (K.Shown.shown_as entry.now.key) entry.now.value) }
    {
        self.entry_line(heap, place, shown(heap, &entry.key)?.as_str(), entry.value)
    }

    /// The lines of entries.
    fn lines<K: Shown>(&self, heap: Global, entries: &[Entry<K>]) -> Result<String, AllocError>
        ensures { IfOk result (λ text. string_bytes text ≡ lines_from K.Shown.shown_as self.now.place self.now.key 0 entries.now) }
    {
        let mut text = String::new(heap);
        for (place, entry) in entries.iter().enumerate() {
            let line = self.line_of(heap, place, entry)?;
            text.push_str(line.as_str())?;
        }
        Ok(text)
    }
}

/// A line for each entry: its place, its key and its value.
pub fn table<K: Shown>(heap: Global, entries: &[Entry<K>]) -> Result<String, AllocError>
    ensures { IfOk result (λ text. string_bytes text ≡ table_of K.Shown.shown_as entries.now) }
{
    let largest = entries.len().saturating_sub(1);
    let columns = Columns {
        place: largest.to_string(heap)?.len(),
        key: key_column(heap, entries)?,
    };
    columns.lines(heap, entries)
}
