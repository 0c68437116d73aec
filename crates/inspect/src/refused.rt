//! The line that says why a file is refused.

ghost use Rattle.std.specs.Prelude.{Some};
ghost use Rattle.inspect.specs.Refused.{meaning_of, refusal_line};

use image::refusal::Refusal;
use std::fmt;

/// What a refusal means, for a kind whose keys have that width.
#[derive(Clone, Copy, Debug, PartialEq, Eq)]
struct Meaning {
    width: usize,
    refusal: Refusal,
}

impl fmt::Display for Meaning {
    ghost output = { λ meaning. Some (meaning_of meaning.width meaning.refusal) };

    fn fmt<W: fmt::Write>(&self, f: &mut fmt::Formatter<W>) -> fmt::Result {
        let width = self.width;
        match self.refusal {
            Refusal::Buffer { needed } => write!(
                f,
                "the buffer is too short, the image has {needed} bytes"
            ),
            Refusal::Length => write!(
                f,
                "the file is cut short or goes on past its end: after 4 bytes of sizes it must have a key of {width} bytes and a value of 8 bytes for each entry that they count"
            ),
            Refusal::Width => write!(
                f,
                "the keys are not {width} bytes wide, as keys of this kind are: it may be an image of another kind, or no image"
            ),
            Refusal::Count => write!(
                f,
                "there are more than 4096 entries, the most that an image holds"
            ),
            Refusal::Order { place } => write!(
                f,
                "the key at place {place} does not stand after the key before it"
            ),
        }
    }
}

/// The line of a refused file: its name, its bytes, the refusal, and what that means where keys have that width.
#[derive(Clone, Copy, Debug, PartialEq, Eq)]
pub struct RefusalLine<'a> {
    pub name: &'a str,
    pub bytes: usize,
    pub width: usize,
    pub refusal: Refusal,
}

impl<'a> fmt::Display for RefusalLine<'a> {
    ghost output = { λ line. Some (refusal_line line.name.now line.bytes line.width line.refusal) };

    fn fmt<W: fmt::Write>(&self, f: &mut fmt::Formatter<W>) -> fmt::Result {
        let RefusalLine {
            name,
            bytes,
            width,
            refusal,
        } = *self;
        let number = u8::from(refusal);
        let meaning = Meaning { width, refusal };
        writeln!(f, "{name}: bytes {bytes}, refused with {number}: {meaning}")
    }
}
