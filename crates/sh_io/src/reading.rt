ghost use Rattle.std.specs.Prelude.{◌≡◌, ◌+◌, ◌<◌, ◌≤◌, length, IfOk, IsErrOf};
ghost use Rattle.std.specs.Io.KnownBytes.{ReadConsumes};
ghost use Rattle.sh_io.specs.Causes.{HasCause, Rose};
ghost use Rattle.sh_io.specs.Reading.{ReadsAll};

use crate::{Failed, Source};
use std::alloc::{AllocError, Global};
use thiserror::Error;

/// The most bytes of an input.
pub const MAX_BYTES: usize = 16_777_216;

/// How many bytes one read asks for at most.
const PIECE: usize = 65_536;

/// Why a source was not read to its end.
#[derive(Clone, Copy, Debug, PartialEq, Eq, Error)]
pub enum ReadEnd {
    #[error("a read failed")]
    Fault,
    #[error("the text is too long")]
    TooLong,
    #[error("out of memory")]
    Mem,
}

impl From<AllocError> for ReadEnd {
    ghost use Rattle.std.specs.Prelude.{◌≡◌};
    ghost use Rattle.sh_io.specs.declared.reading.ReadEnd.TheVariants.{Mem};

    ghost from_gives = { λ _ e. e ≡ Mem };

    fn from(_: AllocError) -> ReadEnd {
        ReadEnd::Mem
    }
}

impl From<Failed> for ReadEnd {
    ghost use Rattle.std.specs.Prelude.{◌≡◌};
    ghost use Rattle.sh_io.specs.declared.reading.ReadEnd.TheVariants.{Fault};

    ghost from_gives = { λ _ e. e ≡ Fault };

    fn from(_: Failed) -> ReadEnd {
        ReadEnd::Fault
    }
}

/// Reads into the first `most` bytes of `buf`.
fn read_some<S: Source>(src: &mut S, buf: &mut [u8], most: usize) -> Result<usize, Failed>
    requires some { 0 < most }
    requires within { most ≤ length buf.old }
    ensures bound { IfOk result (λ n. n ≤ most) }
    ensures bytes { ReadConsumes (S.left src.old) (S.left src.new) result buf.new }
    ensures cause { HasCause (S.faults src.old) (S.faults src.new) result }
{
    src.read(&mut buf[..most])
}

/// Reads to the end of the source: all that it held. `TooLong` is answered exactly where 16,777,217
/// bytes were read, and no more are read in any case; `Fault` only where the source failed in this call.
/// What was read before a refusal is gone.
pub fn read_all<S: Source>(alloc: Global, src: &mut S) -> Result<Vec<u8>, ReadEnd>
    ensures all { ReadsAll (S.left src.old) (S.left src.new) result }
    ensures later { S.faults src.old ≤ S.faults src.new }
    ensures fault { IsErrOf result ReadEnd.Fault → Rose (S.faults src.old) (S.faults src.new) }
{
    let mut bytes = Vec::new(alloc);
    let mut buf = [0u8; PIECE];
    'pieces: loop {
        // One byte more than the most, so that too long a text shows.
        let room = (MAX_BYTES + 1 - bytes.len()).min(PIECE);
        let n = read_some(src, &mut buf, room)?;
        if n == 0 {
            return Ok(bytes);
        }
        if bytes.len() + n > MAX_BYTES {
            return Err(ReadEnd::TooLong);
        }
        bytes.extend_from_slice(&buf[..n])?;
    }
}
