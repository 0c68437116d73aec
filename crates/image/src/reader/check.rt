ghost use Rattle.std.specs.Prelude.{◌≡◌, true, List, length, is_ok, if◌then◌else◌, Some, None, Ok, MatchResult, nat_lt};
ghost use Rattle.image.specs.declared.entry.Entry.{Entry};
ghost use Rattle.image.specs.Image.{IsImage, count_in, entries_of, keys_of, width_in};
ghost use Rattle.image.specs.Read.{entries_read};
ghost use Rattle.image.specs.Verdict.{first_unordered, sizes_verdict, verdict};

use super::Reader;
use crate::entry::MOST_ENTRIES;
use crate::order::first_unordered;
use crate::refusal::Refusal;
use keys::byte_form::ByteForm;
use keys::number::read_number;

/// The width and the count that bytes name, absent where there are fewer than the four bytes that hold them.
fn sizes(bytes: &[u8]) -> Option<(u16, u16)>
    ensures { result ≡ (if nat_lt (length bytes.now) 4 then None else Some (width_in bytes.now, count_in bytes.now)) }
{
    let width = read_number(bytes.get(0..2)?)?;
    let count = read_number(bytes.get(2..4)?)?;
    Some((width, count))
}

/// How many entries bytes hold whose sizes are right; the order of the keys is not looked at.
fn counted<K: ByteForm>(image: &[u8]) -> Result<usize, Refusal>
    ensures { result ≡ sizes_verdict K.ByteForm.WIDTH image.now }
{
    let (width, count) = sizes(image).ok_or(Refusal::Length)?;
    let (width, count) = (usize::from(width), usize::from(count));
    if width != K::WIDTH {
        return Err(Refusal::Width);
    }
    if image.len() != 4 + count * (width + 8) {
        return Err(Refusal::Length);
    }
    if count > MOST_ENTRIES {
        return Err(Refusal::Count);
    }
    Ok(count)
}

/// Checks that bytes are an image of entries with keys of the kind. On success the reader reads them; on refusal it is
/// as it was.
// The caller lends the place of the reader: a check that refuses leaves there what was read before.
pub fn check<'a, K: ByteForm>(reader: &mut Reader<'a>, image: &'a [u8]) -> Result<(), Refusal>
    ensures answer { result ≡ verdict K.Ordered.before K.ByteForm.WIDTH K.ByteForm.key_of image.now }
    ensures reads { MatchResult result
        (λ _. (reader.new.image.now ≡ image.now) × (reader.new.width ≡ K.ByteForm.WIDTH) × (reader.new.count ≡ count_in image.now))
        (λ _. reader.new ≡ reader.old) }
    ensures accepted { is_ok result ≡ true → IsImage K.Ordered.before K.ByteForm.WIDTH K.ByteForm.form image.now (entries_of K.ByteForm.key_of K.ByteForm.WIDTH image.now) }
    ensures exactly { (es : List (Entry K)) → IsImage K.Ordered.before K.ByteForm.WIDTH K.ByteForm.form image.now es → (is_ok result ≡ true) × (es ≡ entries_of K.ByteForm.key_of K.ByteForm.WIDTH image.now) }
{
    let sized = Reader {
        image,
        width: K::WIDTH,
        count: counted::<K>(image)?,
    };
    if let Some(place) = sized.unordered::<K>() {
        return Err(Refusal::Order { place });
    }
    *reader = sized;
    Ok(())
}

impl<'a> Reader<'a> {
    /// The first place whose key does not stand after the one before it.
    fn unordered<K: ByteForm>(&self) -> Option<usize>
        ensures { result ≡ first_unordered K.Ordered.before (keys_of (entries_read K.ByteForm.WIDTH K.ByteForm.key_of self.now)) }
    {
        // Not filter_map: it looks for each next entry in a loop of its own, which costs more than reading the entry.
        let entries = (0..self.count).map_while(|place| self.decoded::<K>(place));
        first_unordered(entries.map(|entry| entry.key))
    }
}
