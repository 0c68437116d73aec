ghost use Rattle.std.specs.Prelude.{Some, ◌++◌, take, drop, codes, decimal};
ghost use Rattle.std.proofs.Common.{length-append, rules};
ghost use Rattle.keys.specs.Bytes.{big_endian, number_of};
ghost use Rattle.keys.specs.Order.{pair_before};
ghost use Rattle.keys.specs.BytesLemmas.{length-big_endian, parts_apart, parts_every};

use crate::byte_form::ByteForm;
use crate::number::{Number, read_parts, write_parts};
use crate::order::Ordered;
use std::fmt;

/// The second in which a token expires, and a serial that tells tokens of one second apart.
#[derive(Clone, Copy, Debug, PartialEq, Eq, PartialOrd, Ord, Hash)]
pub struct Expiry {
    pub second: u32,
    pub serial: u64,
}

/// Expiry keys stand in the order of their seconds, then of their serials.
impl Ordered for Expiry {
    ghost before = { λ a b. pair_before a.second a.serial b.second b.serial };

    ghost irreflexive = { Prim.search rules };

    ghost transitive = { Prim.search rules };

    ghost connected = { Prim.search rules };

    fn stands_before(&self, other: &Expiry) -> bool {
        self < other
    }
}

/// An expiry key's form is its second in 4 bytes, then its serial in 8.
impl ByteForm for Expiry {
    const WIDTH: usize = 12;

    ghost WIDTH = { 12 };

    ghost form = { λ k. big_endian 4 k.second ++ big_endian 8 k.serial };

    ghost key_of = { λ bytes. record { second = number_of (take 4 bytes); serial = number_of (drop 4 bytes) } };

    ghost widths = { Prim.search rules };

    ghost wide = { λ k. simp (length-append, length-big_endian) };

    ghost apart = { λ a b e. let p = parts_apart 3 7 a.second a.serial b.second b.serial e in λ i. record { second = p.0 i; serial = p.1 i } };

    ghost every = { λ bytes l b. parts_every 4 8 bytes l b };

    fn write(&self, into: &mut [u8]) -> bool {
        write_parts(into, &self.second.to_bytes(), &self.serial.to_bytes())
    }

    fn read(from: &[u8]) -> Option<Expiry> {
        let (second, serial) = read_parts(from)?;
        Some(Expiry { second, serial })
    }
}

/// An expiry key is shown as SECOND:SERIAL.
impl fmt::Display for Expiry {
    ghost output = { λ k. Some (decimal k.second ++ (codes ":" ++ decimal k.serial)) };

    fn fmt<W: fmt::Write>(&self, f: &mut fmt::Formatter<W>) -> fmt::Result {
        let Expiry { second, serial } = *self;
        write!(f, "{second}:{serial}")
    }
}
