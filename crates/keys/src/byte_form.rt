ghost use Rattle.std.specs.Prelude.{◌≡◌, ℕ, ◌≤◌, List, length, if◌then◌else◌, Some, None, ◌==◌, nat_eq};
ghost use Rattle.keys.specs.Bytes.{Bytes};

use crate::order::Ordered;

/// A kind of key that goes into images: each key has a form of a fixed number of bytes.
pub trait ByteForm: Ordered {
    /// How many bytes a form has.
    const WIDTH: usize;

    ghost WIDTH: { ℕ };

    ghost form: { Self → List ℕ };

    /// The key that has those bytes as its form.
    ghost key_of: { List ℕ → Self };

    /// Writes the form over bytes that are exactly as many; others stay, and the answer is no.
    // A plain bool: there is one reason for a no, and nothing goes with it.
    fn write(&self, into: &mut [u8]) -> bool
        ensures test { result ≡ (length into.old == WIDTH) }
        ensures after { into.new ≡ (if result then form self.now else into.old) };

    /// The key with that form, absent where the bytes are not `WIDTH` many.
    fn read(from: &[u8]) -> Option<Self>
        ensures { result ≡ (if nat_eq (length from.now) WIDTH then Some (key_of from.now) else None) };

    ghost widths: { (1 ≤ WIDTH) × (WIDTH ≤ 32) };

    ghost wide: { (k : Self) → length (form k) ≡ WIDTH };

    /// Different keys have different forms.
    ghost apart: { (a b : Self) → form a ≡ form b → a ≡ b };

    /// Every `WIDTH` bytes are the form of a key.
    ghost every: { (bytes : List ℕ) → length bytes ≡ WIDTH → Bytes bytes → form (key_of bytes) ≡ bytes };
}
