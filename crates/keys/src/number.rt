//! Numbers in bytes, the most significant byte first.

#![tactic(auto, using(crate::specs::BytesLemmas::number_of_read), unfolding(crate::specs::Bytes::big_endian, crate::specs::BytesLemmas::number_at))]

ghost use Rattle.std.specs.Prelude.{◌≡◌, ℕ, ◌+◌, ◌≤◌, ◌++◌, length, take, drop, if◌then◌else◌, Some, None, nat_eq};
ghost use Rattle.std.proofs.Common.{rules};
ghost use Rattle.keys.specs.Bytes.{big_endian, number_of};

/// An unsigned number that is kept in `N` bytes.
pub trait Number<const N: usize>: Copy {
    ghost number: { Self → ℕ };

    /// The value that has that number.
    ghost value_of: { ℕ → Self };

    fn to_bytes(self) -> [u8; N]
        ensures { result ≡ big_endian N (number self) };

    fn from_bytes(bytes: &[u8; N]) -> Self
        ensures { result ≡ value_of (number_of bytes.now) };

    /// An array of so many bytes may be made.
    ghost few: { N ≤ 8 };

    /// The number says all of a value.
    ghost back: { (n : Self) → value_of (number n) ≡ n };
}

// Three impls alike: std has no trait over these numbers, and an impl that a macro of our own writes is refused.
impl Number<2> for u16 {
    ghost number = { λ n. n };

    ghost value_of = { λ n. n };

    ghost few = { Prim.search rules };

    ghost back = { Prim.search rules };

    fn to_bytes(self) -> [u8; 2] {
        u16::to_be_bytes(self)
    }

    fn from_bytes(bytes: &[u8; 2]) -> u16 {
        u16::from_be_bytes(*bytes)
    }
}

impl Number<4> for u32 {
    ghost number = { λ n. n };

    ghost value_of = { λ n. n };

    ghost few = { Prim.search rules };

    ghost back = { Prim.search rules };

    fn to_bytes(self) -> [u8; 4] {
        u32::to_be_bytes(self)
    }

    fn from_bytes(bytes: &[u8; 4]) -> u32 {
        u32::from_be_bytes(*bytes)
    }
}

impl Number<8> for u64 {
    ghost number = { λ n. n };

    ghost value_of = { λ n. n };

    ghost few = { Prim.search rules };

    ghost back = { Prim.search rules };

    fn to_bytes(self) -> [u8; 8] {
        u64::to_be_bytes(self)
    }

    fn from_bytes(bytes: &[u8; 8]) -> u64 {
        u64::from_be_bytes(*bytes)
    }
}

/// The number that bytes are, absent where they are not `N` many.
pub fn read_number<const N: usize, T: Number<N>>(bytes: &[u8]) -> Option<T>
    ensures { result ≡ (if nat_eq (length bytes.now) N then Some (T.value_of (number_of bytes.now)) else None) }
{
    let bytes = <&[u8; N]>::try_from(bytes).ok()?;
    Some(T::from_bytes(bytes))
}

/// Writes two parts over bytes that are exactly as many as both; others stay, and the answer is no.
pub(crate) fn write_parts(into: &mut [u8], first: &[u8], second: &[u8]) -> bool
    ensures test { result ≡ nat_eq (length into.old) (length first.now + length second.now) }
    ensures after { into.new ≡ (if result then first.now ++ second.now else into.old) }
{
    if into.len() != first.len() + second.len() {
        return false;
    }
    let (front, back) = into.split_at_mut(first.len());
    front.copy_from_slice(first);
    back.copy_from_slice(second);
    true
}

/// The two numbers that bytes are, one after the other; absent where they are not as many as both.
pub(crate) fn read_parts<const M: usize, const N: usize, A: Number<M>, B: Number<N>>(
    bytes: &[u8],
) -> Option<(A, B)>
    ensures { result ≡ (if nat_eq (length bytes.now) (M + N) then Some (A.value_of (number_of (take M bytes.now)), B.value_of (number_of (drop M bytes.now))) else None) }
{
    let (first, second) = bytes.split_at_checked(M)?;
    Some((read_number(first)?, read_number(second)?))
}
