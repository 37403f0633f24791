ghost use Rattle.std.specs.Prelude.{◌≡◌, ◌++◌, codes, flat_map};
ghost use Rattle.sh_cli.specs.Line.{WritesLine, fault_text, line_of, name_of, spelled};
ghost use Rattle.sh_io.specs.Causes.{HasCause};
ghost use Rattle.sh_io.specs.Writing.{WritesWhole};

use crate::{Passed, Status, Tool};
use itoa::Buffer;
use sh_base::Refusal;
use sh_io::{Sink, WriteFault, write_text};

/// A piece of an error line.
#[derive(Clone, Copy)]
pub(crate) enum Piece {
    /// A text as it stands.
    Word(&'static str),
    /// A number in decimal.
    Number(u32),
}

/// Writes the error line of a refusal, its line feed included, as far as the error output takes it.
/// It takes no memory.
pub(crate) fn report<E: Sink>(tool: Tool, status: Status, err: &mut E)
    ensures { WritesLine (line_of tool status)
        (E.written err.old) (E.written err.new) (E.faults err.old) (E.faults err.new) }
{
    match status {
        Status::Success => {}
        Status::Usage => fixed(tool, "2 usage\n", err),
        Status::Text(refusal) => placed(tool, "3 ", refusal, err),
        Status::Verify(refusal) => placed(tool, "4 ", refusal, err),
        Status::Admission(refusal) => placed(tool, "5 ", refusal, err),
        Status::Read => fixed(tool, "10 read\n", err),
        Status::Write => fixed(tool, "11 write\n", err),
        Status::Limit(Passed::Input) => fixed(tool, "12 L1\n", err),
        Status::Limit(Passed::At(refusal)) => placed(tool, "12 ", refusal, err),
        Status::Memory => fixed(tool, "13 memory\n", err),
        Status::Unbuilt => fixed(tool, "14 unbuilt\n", err),
    }
}

/// The name of the program.
fn name(tool: Tool) -> &'static str
    ensures { result.now ≡ name_of tool }
{
    match tool {
        Tool::Opt => "shard-opt",
        Tool::Run => "shard-run",
    }
}

/// Writes the line of a refusal without a place.
fn fixed<E: Sink>(tool: Tool, cause: &'static str, err: &mut E)
    ensures { WritesLine (name_of tool ++ codes ": error " ++ cause.now)
        (E.written err.old) (E.written err.new) (E.faults err.old) (E.faults err.new) }
{
    let pieces = [
        Piece::Word(name(tool)),
        Piece::Word(": error "),
        Piece::Word(cause),
    ];
    write_line(&pieces, err);
}

/// Writes the line of a refusal at a place.
fn placed<E: Sink>(tool: Tool, number: &'static str, refusal: Refusal, err: &mut E)
    ensures { WritesLine (name_of tool ++ codes ": error " ++ number.now ++ fault_text refusal)
        (E.written err.old) (E.written err.new) (E.faults err.old) (E.faults err.new) }
{
    let pieces = [
        Piece::Word(name(tool)),
        Piece::Word(": error "),
        Piece::Word(number),
        Piece::Word(refusal.rule.code()),
        Piece::Word(" at "),
        Piece::Number(refusal.place.line),
        Piece::Word(":"),
        Piece::Number(refusal.place.column),
        Piece::Word("\n"),
    ];
    write_line(&pieces, err);
}

/// Writes the pieces of a line, as far as the error output takes them.
fn write_line<E: Sink>(pieces: &[Piece], err: &mut E)
    ensures { WritesLine (flat_map spelled pieces.now)
        (E.written err.old) (E.written err.new) (E.faults err.old) (E.faults err.new) }
{
    let _ = write_pieces(pieces, err);
}

fn write_pieces<E: Sink>(pieces: &[Piece], err: &mut E) -> Result<(), WriteFault>
    ensures bytes { WritesWhole (E.written err.old) (E.written err.new) result
        (flat_map spelled pieces.now) }
    ensures cause { HasCause (E.faults err.old) (E.faults err.new) result }
{
    for piece in pieces {
        write_piece(*piece, err)?;
    }
    Ok(())
}

fn write_piece<E: Sink>(piece: Piece, err: &mut E) -> Result<(), WriteFault>
    ensures bytes { WritesWhole (E.written err.old) (E.written err.new) result (spelled piece) }
    ensures cause { HasCause (E.faults err.old) (E.faults err.new) result }
{
    match piece {
        Piece::Word(text) => write_text(err, text.as_bytes()),
        Piece::Number(number) => write_text(err, Buffer::new().format(number).as_bytes()),
    }
}
