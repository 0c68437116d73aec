//! The kinds of keys that can be named on the command line.

ghost use Rattle.std.specs.Prelude.{◌≡◌};
ghost use Rattle.std.specs.Result.{result_ok};
ghost use Rattle.inspect.specs.Kind.{kind_named};

use std::str::FromStr;

#[derive(Clone, Copy, Debug, PartialEq, Eq)]
pub enum Kind {
    Token,
    Expiry,
}

/// The word names no kind.
#[derive(Clone, Copy, Debug, PartialEq, Eq)]
pub struct UnknownKind;

/// The kind that a word names.
impl FromStr for Kind {
    type Err = UnknownKind;

    ghost from_str_gives = { λ word kind. result_ok kind ≡ kind_named word };

    fn from_str(word: &str) -> Result<Kind, UnknownKind> {
        match word {
            "token" => Ok(Kind::Token),
            "expiry" => Ok(Kind::Expiry),
            _ => Err(UnknownKind),
        }
    }
}
