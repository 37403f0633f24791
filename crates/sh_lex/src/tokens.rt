ghost use Rattle.std.specs.Prelude.{◌≡◌};
ghost use Rattle.sh_lex.specs.declared.tokens.LexRefusal.TheVariants.{Mem};

use sh_base::Place;
use std::alloc::{AllocError, AllocFailed};
use thiserror::Error;

/// What a token is, by its bytes. docs/LANGUAGE.md says which bytes each kind has.
#[derive(Clone, Copy, Debug, PartialEq, Eq)]
pub enum TokenKind {
    /// A letter or `_`, then letters, digits, `_`, `.` and `$`.
    Word,
    /// `%` and a name, in which `-` may stand too.
    Val,
    /// `@` and a name.
    At,
    /// `#` and a name.
    Hash,
    /// `^` and a name.
    Block,
    /// `!` and a name.
    Bang,
    /// Digits, with a value below 2^64.
    Number,
    /// Digits, with a value below 2^64, and `x` directly behind them; or `?x`.
    Dim,
    /// A text between quotes, on one line and without `\`.
    Str,
    /// Punctuation.
    Sign,
    /// The end of the text, behind the last blank and comment.
    End,
}

/// A token: the bytes `start..end` of its text, and the place of byte `start`.
#[derive(Clone, Copy, Debug, PartialEq, Eq)]
pub struct Token {
    pub kind: TokenKind,
    pub start: u32,
    pub end: u32,
    pub place: Place,
}

/// Why a text has no tokens, and the first place at which that shows.
#[derive(Clone, Copy, Debug, PartialEq, Eq, Error)]
pub enum LexRefusal {
    /// B1: no token begins with this byte.
    #[error("no token begins with this byte")]
    BadByte { place: Place },
    /// B2: a string isn't closed on its line, or has a `\`. The place is that of its opening quote.
    #[error("a string is not closed on its line, or has a backslash")]
    OpenString { place: Place },
    /// B3: a number isn't below 2^64. The place is that of its first digit.
    #[error("a number is not below 2^64")]
    NumberTooWide { place: Place },
    /// Want of memory.
    #[error("out of memory")]
    Mem,
}

impl From<AllocError> for LexRefusal {
    ghost from_gives = { λ _ e. e ≡ Mem };

    fn from(_: AllocError) -> LexRefusal {
        LexRefusal::Mem
    }
}

impl<T: Drop> From<AllocFailed<T>> for LexRefusal {
    ghost from_gives = { λ _ e. e ≡ Mem };

    fn from(_: AllocFailed<T>) -> LexRefusal {
        LexRefusal::Mem
    }
}
