//! Keys, records and frames for the tests.

use keys::expiry::Expiry;
use keys::token::Token;
use nodes::node::{Attributes, Delta, Frame, FrameState, Head, Kind, Record};

pub fn token(second: u64) -> Token {
    Token { first: 0, second }
}

pub fn expiry(second: u32) -> Expiry {
    Expiry { second, serial: 1 }
}

/// The attributes of a chain that is all of its level.
pub fn attributes<K: Copy>(size: usize, depth: usize) -> Attributes<K> {
    Attributes {
        low: None,
        high: None,
        right: None,
        size,
        depth,
    }
}

/// A record in use.
pub fn record<K: Copy>(
    kind: Kind,
    key: K,
    value: u64,
    next: Head,
    size: usize,
    depth: usize,
) -> Record<K> {
    Record {
        free: false,
        delta: Delta {
            kind,
            key,
            value,
            next,
            attributes: attributes(size, depth),
        },
    }
}

/// A frame in use.
pub fn frame<K: Copy>(size: usize) -> Frame<K> {
    Frame {
        state: FrameState::Used,
        attributes: attributes(size, 0),
    }
}
