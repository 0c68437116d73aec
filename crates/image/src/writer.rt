//! Images written into a caller's buffer: whole, or the sizes first and then entry by entry.

ghost use Rattle.std.specs.Prelude.{◌≡◌, ◌+◌, ◌≤◌, ◌++◌, length, drop, is_ok, if◌then◌else◌, Some, None, nat_lt};
ghost use Rattle.image.specs.Image.{image_length, image_of, keys_of, most_entries};
ghost use Rattle.image.specs.Verdict.{first_unordered};
ghost use Rattle.image.specs.Written.{has_place, room_verdict, splice, with_entries, with_entry, with_sizes, write_verdict};

use crate::entry::{Entry, MOST_ENTRIES};
use crate::order::first_unordered;
use crate::refusal::Refusal;
use keys::byte_form::ByteForm;
use keys::number::Number;

/// How many bytes an image of so many entries has, absent for more entries than an image holds.
pub fn length_of<K: ByteForm>(count: usize) -> Option<usize>
    ensures { result ≡ (if nat_lt most_entries count then None else Some (image_length K.ByteForm.WIDTH count)) }
{
    if count > MOST_ENTRIES {
        return None;
    }
    Some(4 + count * (K::WIDTH + 8))
}

fn put(buffer: &mut [u8], at: usize, bytes: &[u8])
    requires { at + length bytes.now ≤ length buffer.old }
    ensures { buffer.new ≡ splice at bytes.now buffer.old }
{
    buffer[at..at + bytes.len()].copy_from_slice(bytes);
}

fn put_key<K: ByteForm>(buffer: &mut [u8], at: usize, key: &K)
    requires { at + K.ByteForm.WIDTH ≤ length buffer.old }
    ensures { buffer.new ≡ splice at (K.ByteForm.form key.now) buffer.old }
{
    // It fits: the answer is yes.
    key.write(&mut buffer[at..at + K::WIDTH]);
}

/// Writes the sizes of an image of so many entries and answers the image's length; on refusal the buffer is as it was.
pub fn write_sizes<K: ByteForm>(buffer: &mut [u8], count: usize) -> Result<usize, Refusal>
    ensures answer { result ≡ room_verdict K.ByteForm.WIDTH count buffer.old }
    ensures bytes { buffer.new ≡ (if is_ok result then with_sizes K.ByteForm.WIDTH count buffer.old else buffer.old) }
{
    let needed = length_of::<K>(count).ok_or(Refusal::Count)?;
    if buffer.len() < needed {
        return Err(Refusal::Buffer { needed });
    }
    // Both fit in 16 bits: a width is at most 32 and a count at most 4096.
    put(buffer, 0, &(K::WIDTH as u16).to_bytes());
    put(buffer, 2, &(count as u16).to_bytes());
    Ok(needed)
}

/// Writes the key and the value of the entry at a place of an image of so many entries. Where the image is too large, or
/// the buffer too short for it, or the image has no such place, nothing is written and the answer is no.
// A plain bool: no caller passes a no on.
pub fn write_entry<K: ByteForm>(
    buffer: &mut [u8],
    count: usize,
    place: usize,
    entry: &Entry<K>,
) -> bool
    ensures answer { result ≡ has_place K.ByteForm.WIDTH count place buffer.old }
    ensures bytes { buffer.new ≡ (if result then with_entry K.ByteForm.WIDTH K.ByteForm.form count place entry.now buffer.old else buffer.old) }
{
    let room = length_of::<K>(count).is_some_and(|needed| needed <= buffer.len());
    if !room || place >= count {
        return false;
    }
    put_key(buffer, 4 + place * K::WIDTH, &entry.key);
    put(
        buffer,
        4 + count * K::WIDTH + place * 8,
        &entry.value.to_bytes(),
    );
    true
}

/// The first place whose key does not stand after the one before it.
fn unordered<K: ByteForm>(entries: &[Entry<K>]) -> Option<usize>
    ensures { result ≡ first_unordered K.Ordered.before (keys_of entries.now) }
{
    first_unordered(entries.iter().map(|entry| entry.key))
}

/// Writes each entry at its place in a buffer that has room for the image.
fn write_entries<K: ByteForm>(entries: &[Entry<K>], buffer: &mut [u8])
    requires few { length entries.now ≤ most_entries }
    requires room { image_length K.ByteForm.WIDTH (length entries.now) ≤ length buffer.old }
    ensures { buffer.new ≡ with_entries K.ByteForm.WIDTH K.ByteForm.form (length entries.now) 0 entries.now buffer.old }
{
    for (place, entry) in entries.iter().enumerate() {
        // There is room: the answer is yes.
        write_entry(buffer, entries.len(), place, entry);
    }
}

/// Writes the image of entries and answers its length; what the buffer holds past it stays. On refusal the buffer is as
/// it was.
pub fn write<K: ByteForm>(entries: &[Entry<K>], buffer: &mut [u8]) -> Result<usize, Refusal>
    ensures answer { result ≡ write_verdict K.Ordered.before K.ByteForm.WIDTH entries.now buffer.old }
    ensures bytes { buffer.new ≡ (if is_ok result then image_of K.ByteForm.WIDTH K.ByteForm.form entries.now ++ drop (image_length K.ByteForm.WIDTH (length entries.now)) buffer.old else buffer.old) }
{
    if entries.len() > MOST_ENTRIES {
        return Err(Refusal::Count);
    }
    if let Some(place) = unordered(entries) {
        return Err(Refusal::Order { place });
    }
    let needed = write_sizes::<K>(buffer, entries.len())?;
    write_entries(entries, buffer);
    Ok(needed)
}
