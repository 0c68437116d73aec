//! The report on the bytes of a file.

ghost use Rattle.std.specs.Prelude.{◌≡◌, IfOk, is_err, string_bytes};
ghost use Rattle.image.specs.Read.{entries_read};
ghost use Rattle.image.specs.Verdict.{verdict};
ghost use Rattle.inspect.specs.Report.{image_text, printed, report_text};

use crate::lines::Header;
use crate::refused::RefusalLine;
use crate::shown::Shown;
use crate::table::{entries, table};
use image::reader::Reader;
use image::reader::check::check;
use std::alloc::{AllocError, Global};

/// The header of an image of so many bytes, and a line for each of its entries.
fn image_text<K: Shown>(
    heap: Global,
    name: &str,
    bytes: usize,
    reader: &Reader,
) -> Result<String, AllocError>
    ensures { IfOk result (λ text. string_bytes text ≡ image_text K.Shown.shown_as name.now bytes K.ByteForm.WIDTH (entries_read K.ByteForm.WIDTH K.ByteForm.key_of reader.now)) }
{
    let entries = entries::<K>(heap, reader)?;
    let entries = entries.as_slice();
    let header = Header {
        name,
        bytes,
        width: K::WIDTH,
        entries: entries.len(),
    };
    let mut text = header.to_string(heap)?;
    text.push_str(table(heap, entries)?.as_str())?;
    Ok(text)
}

/// Checks the bytes of a file as an image with keys of the kind. The inner answer is the text of an image, or the line
/// of a refused file.
pub fn report_on<K: Shown>(
    heap: Global,
    name: &str,
    bytes: &[u8],
) -> Result<Result<String, String>, AllocError>
    ensures { IfOk result (λ report.
        (printed report ≡ report_text K.Shown.shown_as name.now K.ByteForm.WIDTH K.ByteForm.key_of bytes.now (verdict K.Ordered.before K.ByteForm.WIDTH K.ByteForm.key_of bytes.now))
        × (is_err report ≡ is_err (verdict K.Ordered.before K.ByteForm.WIDTH K.ByteForm.key_of bytes.now))) }
{
    let mut reader = Reader::empty();
    match check::<K>(&mut reader, bytes) {
        Ok(()) => Ok(Ok(image_text::<K>(heap, name, bytes.len(), &reader)?)),
        Err(refusal) => {
            let line = RefusalLine {
                name,
                bytes: bytes.len(),
                width: K::WIDTH,
                refusal,
            };
            Ok(Err(line.to_string(heap)?))
        }
    }
}
