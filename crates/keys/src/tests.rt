//! The kinds of keys on examples, with a third kind whose order is not the order of its bytes.

ghost use Rattle.std.specs.Prelude.{nat_lt};
ghost use Rattle.keys.specs.Bytes.{big_endian, number_of};
ghost use Rattle.std.proofs.Common.{rules, ap, sym, ◌∙◌};
ghost use Rattle.keys.specs.BytesLemmas.{length-big_endian, big_endian-apart, big_endian_number_of};

use crate::byte_form::ByteForm;
use crate::expiry::Expiry;
use crate::number::{Number, read_number};
use crate::order::{Ordered, same};
use crate::token::Token;
use std::process::Abort;
use std::test::Fail;

/// What is left of a countdown.
#[derive(Clone, Copy, Debug, PartialEq, Eq)]
struct Countdown {
    number: u16,
}

/// The greater number stands before.
impl Ordered for Countdown {
    ghost before = { λ a b. nat_lt b.number a.number };

    ghost irreflexive = { Prim.search rules };

    ghost transitive = { Prim.search rules };

    ghost connected = { Prim.search rules };

    fn stands_before(&self, other: &Countdown) -> bool {
        self.number > other.number
    }
}

impl ByteForm for Countdown {
    const WIDTH: usize = 2;

    ghost WIDTH = { 2 };

    ghost form = { λ k. big_endian 2 k.number };

    ghost key_of = { λ bytes. record { number = number_of bytes } };

    ghost widths = { Prim.search rules };

    ghost wide = { λ k. length-big_endian 2 k.number };

    ghost apart = { λ a b e. let p = big_endian-apart 1 a.number b.number e in λ i. record { number = p i } };

    ghost every = { λ bytes l b. ap (λ w. big_endian w (number_of bytes)) (sym l) ∙ big_endian_number_of bytes b };

    fn write(&self, into: &mut [u8]) -> bool {
        if into.len() != Countdown::WIDTH {
            return false;
        }
        into.copy_from_slice(&self.number.to_bytes());
        true
    }

    fn read(from: &[u8]) -> Option<Countdown> {
        let number = read_number(from)?;
        Some(Countdown { number })
    }
}

/// The first key stands before the second, they are not the same, and each is the same as itself.
fn check_order<K: Ordered>(rt: &impl Abort, first: &K, second: &K) {
    assert!(rt; first.stands_before(second) && !second.stands_before(first));
    assert!(rt; !same(first, second));
    assert!(rt; same(first, first) && same(second, second));
}

/// No form is written over those bytes, all 7, which stay as they were, and no key is read from them.
fn check_refused<K: ByteForm>(rt: &impl Abort, key: &K, bytes: &mut [u8]) {
    assert!(rt; !key.write(bytes));
    assert!(rt; bytes.iter().all(|byte| *byte == 7));
    assert!(rt; K::read(bytes).is_none());
}

/// A key's written form is those bytes and reads back as the key; other lengths are refused.
fn check_form<K: ByteForm>(rt: &impl Abort, key: &K, form: &[u8]) -> Result<(), Fail> {
    let mut bytes = [7u8; 32];
    let into = &mut bytes[0..K::WIDTH];
    assert!(rt; key.write(into));
    assert!(rt; same(&K::read(into).ok_or("no key")?, key));
    assert!(rt; &*into == form);
    check_refused(rt, key, &mut [7u8; 1]);
    check_refused(rt, key, &mut [7u8; 33]);
    Ok(())
}

#[test]
fn tokens_compare_from_the_first_byte_unsigned(rt: HostRuntime) -> Result<(), Fail> {
    let low = Token {
        first: 0x7fff_ffff_ffff_ffff,
        second: 9,
    };
    let high = Token {
        first: 0x8000_0000_0000_0000,
        second: 0,
    };
    check_order(&rt, &low, &high);
    check_order(
        &rt,
        &high,
        &Token {
            second: 1 << 63,
            ..high
        },
    );
    let written = Token {
        first: 0x0001_0203_0405_0607,
        second: 0x0809_0a0b_0c0d_0eff,
    };
    check_form(
        &rt,
        &written,
        &[0, 1, 2, 3, 4, 5, 6, 7, 8, 9, 10, 11, 12, 13, 14, 255],
    )
}

#[test]
fn expiries_compare_by_second_then_serial(rt: HostRuntime) -> Result<(), Fail> {
    let early = Expiry {
        second: 1,
        serial: 2,
    };
    check_order(
        &rt,
        &early,
        &Expiry {
            second: 1,
            serial: 3,
        },
    );
    check_order(
        &rt,
        &early,
        &Expiry {
            second: 2,
            serial: 0,
        },
    );
    let written = Expiry {
        second: 0x0102_0304,
        serial: 0xf5,
    };
    check_form(&rt, &written, &[1, 2, 3, 4, 0, 0, 0, 0, 0, 0, 0, 0xf5])
}

#[test]
fn countdowns_descend(rt: HostRuntime) -> Result<(), Fail> {
    check_order(&rt, &Countdown { number: 256 }, &Countdown { number: 255 });
    check_form(&rt, &Countdown { number: 258 }, &[1, 2])
}
