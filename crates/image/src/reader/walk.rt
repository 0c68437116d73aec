ghost use Rattle.std.specs.Prelude.{◌≡◌, ◌+◌, ◌-◌, ◌*◌, ◌^◌, ◌<◌, true, is_some, if◌then◌else◌};
ghost use Rattle.image.specs.Walked.{part_at, view_of_option};
ghost use Rattle.std.specs.Iterator.{at_most};

use super::Reader;

/// A part of an image that a walk comes to.
// Two cases, not one with a flag: a walk tells key from value by its case.
#[derive(Clone, Copy, Debug, PartialEq, Eq)]
pub enum Part<'a> {
    Sizes(&'a [u8]),
    Key { place: usize, bytes: &'a [u8] },
    Value { place: usize, bytes: &'a [u8] },
}

impl<'a> Reader<'a> {
    /// The part at a step of the walk: the sizes, then the key and the value of each entry. Absent past the last part.
    // A step is a number: the part at any one may be asked for, without those before it.
    pub fn part(&self, step: usize) -> Option<Part<'a>>
        ensures bytes { view_of_option result ≡ part_at self.now.width self.now.count self.now.image.now step }
        ensures steps { is_some result ≡ true → step + 1 < 2 ^ 64 }
    {
        if step == 0 {
            return Some(Part::Sizes(self.image.get(0..4)?));
        }
        let place = (step - 1) / 2;
        let (key, value) = self.entry(place)?;
        Some(if step % 2 == 1 {
            Part::Key { place, bytes: key }
        } else {
            Part::Value {
                place,
                bytes: value,
            }
        })
    }

    /// A walk over all parts, from the first.
    pub fn walk(&self) -> Walk<'a>
        ensures { (result.reader ≡ self.now) × (result.step ≡ 0) }
    {
        Walk {
            reader: *self,
            step: 0,
        }
    }
}

/// A walk over the parts of an image.
#[derive(Clone, Copy, Debug, PartialEq, Eq)]
pub struct Walk<'a> {
    reader: Reader<'a>,
    step: usize,
}

impl<'a> Iterator for Walk<'a> {
    type Item = Part<'a>;

    ghost next_gives = { λ s r t. (view_of_option r ≡ part_at s.reader.width s.reader.count s.reader.image.now s.step) × (t.reader ≡ s.reader) × (t.step ≡ (if is_some r then s.step + 1 else s.step)) };

    ghost remaining = { λ s. at_most (1 + 2 * s.reader.count - s.step) };

    fn next(&mut self) -> Option<Part<'a>> {
        let part = self.reader.part(self.step)?;
        self.step += 1;
        Some(part)
    }
}
