//! How the keys of each kind are shown.

ghost use Rattle.std.specs.Prelude.{◌≡◌, ℕ, List, ◌++◌, Some, codes, decimal};
ghost use Rattle.std.proofs.Common.{rules};
ghost use Rattle.keys.specs.Bytes.{big_endian};
ghost use Rattle.keys.specs.Hex.{hex_of};

use keys::byte_form::ByteForm;
use keys::expiry::Expiry;
use keys::token::Token;
use std::fmt::Display;

/// A kind of key that can be shown.
pub trait Shown: ByteForm + Display {
    ghost shown_as: { Self → List ℕ };

    /// A key is displayed as it is shown.
    ghost displayed: { (k : Self) → Self.output k ≡ Some (shown_as k) };
}

/// A token is shown as its 16 bytes in hex.
impl Shown for Token {
    ghost shown_as = { λ k. hex_of (big_endian 8 k.first ++ big_endian 8 k.second) };

    ghost displayed = { Prim.search rules };
}

/// An expiry key is shown as SECOND:SERIAL.
impl Shown for Expiry {
    ghost shown_as = { λ k. decimal k.second ++ (codes ":" ++ decimal k.serial) };

    ghost displayed = { Prim.search rules };
}
