ghost use Rattle.std.specs.Prelude.{◌≡◌};
ghost use Rattle.sh_parse.specs.declared.refusals.ParseRefusal.TheVariants.{Mem as MemRefusal};

use sh_base::{Mem, Refusal};
use thiserror::Error;

/// Why a text stands for no module.
#[derive(Clone, Copy, Debug, Error)]
pub enum ParseRefusal {
    /// The first token with which no text goes on to a module, and its code: `P3` for a token of a
    /// form that is left out by name, else `P2` for a word where an operation is due, else `P1`.
    #[error("no module is written so")]
    At(Refusal),
    /// Want of memory.
    #[error("out of memory")]
    Mem,
}

impl From<Mem> for ParseRefusal {
    ghost from_gives = { λ _ e. e ≡ MemRefusal };

    fn from(_: Mem) -> ParseRefusal {
        ParseRefusal::Mem
    }
}
