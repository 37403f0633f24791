ghost use Rattle.sh_io.specs.Causes.{HasCause};
ghost use Rattle.sh_io.specs.Writing.{WritesWhole};

use crate::{Failed, Sink};

/// A text that was not written whole.
#[derive(Clone, Copy, Debug, PartialEq, Eq)]
pub struct WriteFault;

impl From<Failed> for WriteFault {
    fn from(_: Failed) -> WriteFault {
        WriteFault
    }
}

/// Writes the whole text. `WriteFault` is answered only where the sink failed in this call, and then
/// a proper prefix of the text was written. It takes no memory.
pub fn write_text<O: Sink>(out: &mut O, text: &[u8]) -> Result<(), WriteFault>
    ensures bytes { WritesWhole (O.written out.old) (O.written out.new) result text.now }
    ensures cause { HasCause (O.faults out.old) (O.faults out.new) result }
{
    let mut done = 0;
    while done < text.len() {
        done += out.write(&text[done..])?;
    }
    Ok(())
}
