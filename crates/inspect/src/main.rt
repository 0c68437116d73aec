//! Prints what images hold, or why a file is no image.

#![tactic(auto)]

mod kind;
mod lines;
mod refused;
mod report;
mod shown;
mod table;

use keys::expiry::Expiry;
use keys::token::Token;
use kind::Kind;
use report::report_on;
use std::{env, fs, io};

const USAGE: &str = "usage: inspect token|expiry FILE...
Prints the entries of images, or why a file is no image. The word token or expiry says what the keys of the
files after it are, and may be given again between files (write ./token for a file of that name).
example: inspect expiry one.image empty.image token tokens.image
";

/// What came of the words on the command line.
#[derive(Clone, Copy, Debug, PartialEq, Eq)]
enum Outcome {
    AllImages,
    SomeRefused,
    NoUsage,
}

/// Prints the report on a file. The answer says whether it is an image.
// A plain bool: a file that is no image is no error, the next file follows.
fn inspect_file(rt: &HostRuntime, kind: Kind, name: &str) -> io::Result<bool> {
    let bytes = match fs::read(rt, name) {
        Ok(bytes) => bytes,
        Err(error) => {
            eprintln!(rt; "{name}: cannot be read: {error}")?;
            return Ok(false);
        }
    };
    let report = match kind {
        Kind::Token => report_on::<Token>(rt.alloc(), name, bytes.as_slice())?,
        Kind::Expiry => report_on::<Expiry>(rt.alloc(), name, bytes.as_slice())?,
    };
    let good = report.is_ok();
    let (Ok(text) | Err(text)) = report;
    rt.print(text.as_str())?;
    Ok(good)
}

/// Inspects the files that the words name.
fn inspect_all(rt: &HostRuntime) -> io::Result<Outcome> {
    let mut kind = None;
    let mut outcome = Outcome::NoUsage;
    let words = match env::args(rt) {
        Ok(words) => words,
        Err(error) => {
            eprintln!(rt; "inspect: the arguments cannot be read as text: {error}")?;
            return Ok(Outcome::SomeRefused);
        }
    };
    for word in words.skip(1) {
        let word = word.as_str();
        if let Ok(named) = word.parse() {
            kind = Some(named);
        } else if let Some(kind) = kind {
            let good = inspect_file(rt, kind, word)?;
            outcome = if good && outcome != Outcome::SomeRefused {
                Outcome::AllImages
            } else {
                Outcome::SomeRefused
            };
        } else {
            return Ok(Outcome::NoUsage);
        }
    }
    Ok(outcome)
}

fn main(rt: HostRuntime) -> io::Result<()> {
    match inspect_all(&rt) {
        Ok(Outcome::AllImages) => Ok(()),
        Ok(Outcome::SomeRefused) => Err(io::Error::from(io::ErrorKind::InvalidData)),
        Ok(Outcome::NoUsage) => {
            eprint!(rt; "{USAGE}")?;
            Err(io::Error::from(io::ErrorKind::InvalidInput))
        }
        Err(error) => {
            eprintln!(rt; "inspect: {error}")?;
            Err(error)
        }
    }
}

#[cfg(test)]
mod tests;
