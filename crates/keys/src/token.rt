ghost use Rattle.std.specs.Prelude.{Some, ◌++◌, take, drop};
ghost use Rattle.std.proofs.Common.{length-append, rules};
ghost use Rattle.keys.specs.Bytes.{big_endian, number_of};
ghost use Rattle.keys.specs.Hex.{hex_of};
ghost use Rattle.keys.specs.Order.{pair_before};
ghost use Rattle.keys.specs.Tokens.{InByteOrder, token_bytes};
ghost use Rattle.keys.specs.BytesLemmas.{length-big_endian, parts_apart, parts_every};

use crate::byte_form::ByteForm;
use crate::number::{Number, read_parts, write_parts};
use crate::order::Ordered;
use std::fmt;

/// An access token: 16 bytes, kept as two words with the first byte most significant.
#[derive(Clone, Copy, Debug, PartialEq, Eq, PartialOrd, Ord, Hash)]
pub struct Token {
    pub first: u64,
    pub second: u64,
}

/// Tokens stand in the order of their bytes, compared unsigned from the first on.
impl Ordered for Token {
    ghost before = { λ a b. pair_before a.first a.second b.first b.second };

    ghost irreflexive = { Prim.search rules };

    ghost transitive = { Prim.search rules };

    ghost connected = { Prim.search rules };

    fn stands_before(&self, other: &Token) -> bool {
        self < other
    }
}

/// A token's form is its 16 bytes.
impl ByteForm for Token {
    const WIDTH: usize = 16;

    ghost WIDTH = { 16 };

    ghost form = { λ k. big_endian 8 k.first ++ big_endian 8 k.second };

    ghost key_of = { λ bytes. record { first = number_of (take 8 bytes); second = number_of (drop 8 bytes) } };

    ghost widths = { Prim.search rules };

    ghost wide = { λ k. simp (length-append, length-big_endian) };

    ghost apart = { λ a b e. let p = parts_apart 7 7 a.first a.second b.first b.second e in λ i. record { first = p.0 i; second = p.1 i } };

    ghost every = { λ bytes l b. parts_every 8 8 bytes l b };

    fn write(&self, into: &mut [u8]) -> bool {
        write_parts(into, &self.first.to_bytes(), &self.second.to_bytes())
    }

    fn read(from: &[u8]) -> Option<Token> {
        let (first, second) = read_parts(from)?;
        Some(Token { first, second })
    }
}

/// A token is shown as its 16 bytes in hex.
impl fmt::Display for Token {
    ghost output = { λ k. Some (hex_of (token_bytes k)) };

    fn fmt<W: fmt::Write>(&self, f: &mut fmt::Formatter<W>) -> fmt::Result {
        let Token { first, second } = *self;
        write!(f, "{first:016x}{second:016x}")
    }
}

/// The order of tokens by their two words is that of their 16 bytes, compared unsigned from the first on.
pub fn stands_by_bytes()
    ensures { InByteOrder }
{}
