ghost use Rattle.std.specs.Prelude.{◌≡◌, length};
ghost use Rattle.image.specs.Read.{bytes_of_pair, decoded_pair, entries_read, entry_parts};
ghost use Rattle.std.specs.List.{slice_get};

use super::Reader;
use crate::entry::Entry;
use keys::byte_form::ByteForm;
use keys::number::read_number;

impl<'a> Reader<'a> {
    /// A reader of no bytes and no entries.
    pub fn empty() -> Reader<'a>
        ensures { (result.count ≡ 0) × (result.width ≡ 0) × (length result.image.now ≡ 0) }
    {
        Reader {
            image: &[],
            width: 0,
            count: 0,
        }
    }

    /// How many entries there are.
    pub fn len(&self) -> usize
        ensures { result ≡ self.now.count }
    {
        self.count
    }

    /// The bytes of the key and of the value at a place, absent past the last entry.
    pub fn entry(&self, place: usize) -> Option<(&'a [u8], &'a [u8])>
        ensures { bytes_of_pair result ≡ entry_parts self.now.width self.now.count self.now.image.now place }
    {
        if place >= self.count {
            return None;
        }
        let image = self.image;
        let key = 4 + place * self.width;
        let value = 4 + self.count * self.width + place * 8;
        Some((&image[key..key + self.width], &image[value..value + 8]))
    }

    /// The entry at a place, absent past the last entry and where the image's keys are not as wide as the kind's.
    pub fn decoded<K: ByteForm>(&self, place: usize) -> Option<Entry<K>>
        ensures { result ≡ slice_get (entries_read K.ByteForm.WIDTH K.ByteForm.key_of self.now) place }
    {
        let (key, value) = self.entry(place)?;
        decode(key, value)
    }
}

/// The entry whose key and value have those bytes, absent where either has another number of bytes.
fn decode<K: ByteForm>(key: &[u8], value: &[u8]) -> Option<Entry<K>>
    ensures { result ≡ decoded_pair K.ByteForm.key_of K.ByteForm.WIDTH key.now value.now }
{
    let key = K::read(key)?;
    let value = read_number(value)?;
    Some(Entry { key, value })
}
