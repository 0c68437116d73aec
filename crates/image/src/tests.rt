ghost use Rattle.std.specs.Prelude.{[], ◌∷◌, nat_lt, slice_index};
ghost use Rattle.std.proofs.Common.{rules};
ghost use Rattle.image.specs.RankByteFormLemmas.{one_byte};

use crate::entry::Entry;
use crate::reader::Reader;
use crate::reader::check::check;
use crate::reader::walk::Part;
use crate::refusal::Refusal;
use crate::writer::{write, write_sizes};
use keys::byte_form::ByteForm;
use keys::expiry::Expiry;
use keys::order::Ordered;
use std::test::Fail;

/// A kind of key whose order is not that of its bytes: the larger number stands before the smaller.
#[derive(Clone, Copy, Debug, PartialEq, Eq)]
struct Rank {
    number: u8,
}

impl Ordered for Rank {
    ghost before = { λ a b. nat_lt b.number a.number };

    ghost irreflexive = { Prim.search rules };

    ghost transitive = { Prim.search rules };

    ghost connected = { Prim.search rules };

    fn stands_before(&self, other: &Rank) -> bool {
        other.number < self.number
    }
}

impl ByteForm for Rank {
    const WIDTH: usize = 1;

    ghost WIDTH = { 1 };

    ghost form = { λ k. k.number ∷ [] };

    ghost key_of = { λ bytes. record { number = slice_index bytes 0 } };

    ghost widths = { Prim.search rules };

    ghost wide = { Prim.search rules };

    ghost apart = { Prim.search rules };

    ghost every = { λ bytes l b. one_byte bytes l };

    fn write(&self, into: &mut [u8]) -> bool {
        if into.len() != Rank::WIDTH {
            return false;
        }
        into[0] = self.number;
        true
    }

    fn read(from: &[u8]) -> Option<Rank> {
        let &[number] = from else {
            return None;
        };
        Some(Rank { number })
    }
}

/// The number of a refusal, absent where there is none.
fn refused<T: Drop>(answer: Result<T, Refusal>) -> Option<u8> {
    answer.err().map(u8::from)
}

#[test]
fn one_expiry_has_24_bytes(rt: HostRuntime) {
    let entries = [Entry {
        key: Expiry {
            second: 0,
            serial: 10,
        },
        value: 7,
    }];
    let mut buffer = [255; 25];
    assert_eq!(rt; write(&entries, &mut buffer).ok(), Some(24));
    assert_eq!(rt;
        buffer,
        [
            0, 12, 0, 1, 0, 0, 0, 0, 0, 0, 0, 0, 0, 0, 0, 10, 0, 0, 0, 0, 0, 0, 0, 7, 255,
        ]
    );
}

/// The second entry of an image of ranks, and how many keys a walk over the image comes to.
fn second_and_keys(bytes: &[u8]) -> Option<(Entry<Rank>, usize)> {
    let mut reader = Reader::empty();
    check::<Rank>(&mut reader, bytes).ok()?;
    let keys = reader
        .walk()
        .filter(|part| matches!(part, Part::Key { .. }))
        .count();
    let second = reader.decoded::<Rank>(1)?;
    Some((second, keys))
}

#[test]
fn ranks_come_back_in_their_order(rt: HostRuntime) -> Result<(), Fail> {
    let entries = [
        Entry {
            key: Rank { number: 9 },
            value: 1,
        },
        Entry {
            key: Rank { number: 3 },
            value: 2,
        },
    ];
    let mut buffer = [0; 22];
    assert_eq!(rt; write(&entries, &mut buffer).ok(), Some(22));
    let (second, keys) = second_and_keys(&buffer).ok_or("no image")?;
    assert_eq!(rt; second.key.number, 3);
    assert_eq!(rt; second.value, 2);
    assert_eq!(rt; keys, 2);
    Ok(())
}

/// The number of the refusal of bytes as an image of ranks, absent where they are one.
fn refused_ranks(bytes: &[u8]) -> Option<u8> {
    let mut reader = Reader::empty();
    refused(check::<Rank>(&mut reader, bytes))
}

#[test]
fn bytes_that_are_no_image_are_refused(rt: HostRuntime) {
    assert_eq!(rt; refused_ranks(&[0, 1, 0]), Some(7));
    assert_eq!(rt; refused_ranks(&[0, 2, 0, 0]), Some(8));
    assert_eq!(rt; refused_ranks(&[0, 1, 0, 1]), Some(7));
    assert_eq!(rt;
        refused_ranks(&[
            0, 1, 0, 2, 3, 9, 0, 0, 0, 0, 0, 0, 0, 1, 0, 0, 0, 0, 0, 0, 0, 2,
        ]),
        Some(10)
    );
    assert_eq!(rt; refused_ranks(&[0, 1, 0, 0]), None);
}

#[test]
fn entries_that_make_no_image_are_refused(rt: HostRuntime) {
    let rank = Entry {
        key: Rank { number: 9 },
        value: 1,
    };
    let mut buffer = [0; 12];
    assert_eq!(rt; refused(write_sizes::<Rank>(&mut buffer, 4097)), Some(9));
    assert_eq!(rt; refused(write(&[rank], &mut buffer)), Some(6));
    assert_eq!(rt; refused(write(&[rank, rank], &mut buffer)), Some(10));
    assert_eq!(rt; buffer, [0; 12]);
}
