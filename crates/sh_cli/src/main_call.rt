ghost use Rattle.std.specs.Prelude.{◌≡◌, ◌≢◌, ◌≤◌, true, false, codes, Some, IfErr, IfOk, IfSome, length, map, string_bytes};
ghost use Rattle.sh_base.specs.Limits.{max_bytes};
ghost use Rattle.sh_io.specs.Causes.{Rose};
ghost use Rattle.std.specs.Io.KnownBytes.{Keeps};
ghost use Rattle.sh_cli.specs.Answer.{IsAnswer, IsPartitioning, asks_unbuilt};
ghost use Rattle.sh_cli.specs.Ending.{IsJudgement, IsRewriting, Refuses, Takes, Writes};
ghost use Rattle.sh_cli.specs.Headline.{Rewrites};
ghost use Rattle.sh_cli.specs.Line.{WritesLine, line_of};
ghost use Rattle.sh_words.specs.Meaning.{AreOptionsOf};
ghost use Rattle.sh_words.specs.Tables.{accepts};
ghost use Rattle.sh_words.specs.Words.{is_given};
ghost use Rattle.sh_words.specs.declared.options.Options.{Options as Given};

use crate::judging::printed;
use crate::line::report;
use crate::vector_sum::VectorSum;
use crate::{Status, Tool};
use sh_io::{Sink, Source, read_all, write_text};
use sh_words::{Options, WordsRefusal, read_words};
use std::alloc::Global;

/// All that a program does. `words` leaves out the program's name. The whole output is made before
/// its first byte is written.
///
/// The status is the one that the words and the text have by `IsAnswer`, but for `Read`, `Limit` of
/// the input and `Write`, which their causes bring, and for `Memory`, which may come at any point
/// before the output is begun. The clauses on bytes hold where the source tells what it has left and
/// the sinks tell what they took.
pub fn shard_main<S: Source, O: Sink, E: Sink>(
    alloc: Global,
    tool: Tool,
    words: &Vec<String>,
    src: &mut S,
    out: &mut O,
    err: &mut E,
) -> Status
    // Usage comes exactly where the words aren't accepted. Then, and where they ask for what isn't
    // built, nothing is read.
    ensures usage { result ≡ Status.Usage
        → accepts tool (map string_bytes words.now.items) ≡ false }
    ensures accepted { result ≢ Status.Usage
        → accepts tool (map string_bytes words.now.items) ≡ true }
    ensures unread { result ≡ Status.Usage → src.new ≡ src.old }
    ensures asked { (o : Given) → AreOptionsOf tool (map string_bytes words.now.items) o
        → asks_unbuilt tool o ≡ true → src.new ≡ src.old }

    // Read and Write come only where the source or the output failed in this call. The limit of the
    // input comes exactly where too much was read, and a judgement of the text only where all of it
    // was.
    ensures read { result ≡ Status.Read → Rose (S.faults src.old) (S.faults src.new) }
    ensures write { result ≡ Status.Write → Rose (O.faults out.old) (O.faults out.new) }
    ensures taken { (o : Given) → AreOptionsOf tool (map string_bytes words.now.items) o
        → asks_unbuilt tool o ≡ false → Takes result (S.left src.old) (S.left src.new) }

    // The answer to the words and the text.
    ensures answer { IfSome (S.left src.old) (λ text.
        Writes (IsAnswer tool (map string_bytes words.now.items) text) result
        (O.written out.old) (O.written out.new)) }
    ensures kept { result ≢ Status.Success → result ≢ Status.Write
        → Keeps (O.written out.old) (O.written out.new) }

    // The headline: what was written by `--partition` runs as what was read means, in every order of
    // device turns.
    ensures headline { result ≡ Status.Success
        → is_given (codes "--partition") (map string_bytes words.now.items) ≡ true
        → Rewrites (S.left src.old) (O.written out.old) (O.written out.new) }
    ensures line { WritesLine (line_of tool result)
        (E.written err.old) (E.written err.new) (E.faults err.old) (E.faults err.new) }
{
    let status = run(alloc, tool, words, src, out);
    report(tool, status, err);
    status
}

/// All but the error line.
fn run<S: Source, O: Sink>(
    alloc: Global,
    tool: Tool,
    words: &Vec<String>,
    src: &mut S,
    out: &mut O,
) -> Status
    ensures usage { result ≡ Status.Usage
        → accepts tool (map string_bytes words.now.items) ≡ false }
    ensures accepted { result ≢ Status.Usage
        → accepts tool (map string_bytes words.now.items) ≡ true }
    ensures unread { result ≡ Status.Usage → src.new ≡ src.old }
    ensures asked { (o : Given) → AreOptionsOf tool (map string_bytes words.now.items) o
        → asks_unbuilt tool o ≡ true → src.new ≡ src.old }
    ensures read { result ≡ Status.Read → Rose (S.faults src.old) (S.faults src.new) }
    ensures write { result ≡ Status.Write → Rose (O.faults out.old) (O.faults out.new) }
    ensures taken { (o : Given) → AreOptionsOf tool (map string_bytes words.now.items) o
        → asks_unbuilt tool o ≡ false → Takes result (S.left src.old) (S.left src.new) }
    ensures answer { IfSome (S.left src.old) (λ text.
        Writes (IsAnswer tool (map string_bytes words.now.items) text) result
        (O.written out.old) (O.written out.new)) }
    ensures kept { result ≢ Status.Success → result ≢ Status.Write
        → Keeps (O.written out.old) (O.written out.new) }
    ensures headline { result ≡ Status.Success
        → is_given (codes "--partition") (map string_bytes words.now.items) ≡ true
        → Rewrites (S.left src.old) (O.written out.old) (O.written out.new) }
{
    let options = match read_words(alloc, tool, words) {
        Ok(options) => options,
        Err(WordsRefusal::Usage) => return Status::Usage,
        Err(WordsRefusal::Mem) => return Status::Memory,
    };
    if asks_unbuilt(tool, &options) {
        return Status::Unbuilt;
    }
    read_and_rewrite(alloc, options.partition, src, out)
}

/// Whether the words ask for what isn't built.
fn asks_unbuilt(tool: Tool, options: &Options) -> bool
    ensures { result ≡ asks_unbuilt tool options.now }
{
    match tool {
        Tool::Opt => options.propagate.is_some() || options.simplify || options.halo_to_shift,
        Tool::Run => true,
    }
}

/// Reads a text and writes what it is rewritten to.
fn read_and_rewrite<S: Source, O: Sink>(
    alloc: Global,
    partition: bool,
    src: &mut S,
    out: &mut O,
) -> Status
    ensures accepted { result ≢ Status.Usage }
    ensures read { result ≡ Status.Read → Rose (S.faults src.old) (S.faults src.new) }
    ensures write { result ≡ Status.Write → Rose (O.faults out.old) (O.faults out.new) }
    ensures taken { Takes result (S.left src.old) (S.left src.new) }
    ensures answer { IfSome (S.left src.old) (λ text.
        Writes (IsRewriting partition text) result (O.written out.old) (O.written out.new)) }
    ensures kept { result ≢ Status.Success → result ≢ Status.Write
        → Keeps (O.written out.old) (O.written out.new) }
    ensures headline { result ≡ Status.Success → partition ≡ true
        → Rewrites (S.left src.old) (O.written out.old) (O.written out.new) }
{
    match read_all(alloc, src) {
        Ok(text) => rewrite(alloc, partition, &text, out),
        Err(end) => Status::from(end),
    }
}

/// Writes what a text is rewritten to.
fn rewrite<O: Sink>(alloc: Global, partition: bool, text: &[u8], out: &mut O) -> Status
    requires { length text.now ≤ max_bytes }
    ensures judged { IsJudgement result }
    ensures write { result ≡ Status.Write → Rose (O.faults out.old) (O.faults out.new) }
    ensures answer { Writes (IsRewriting partition text.now) result
        (O.written out.old) (O.written out.new) }
    ensures kept { result ≢ Status.Success → result ≢ Status.Write
        → Keeps (O.written out.old) (O.written out.new) }
    ensures headline { result ≡ Status.Success → partition ≡ true
        → Rewrites (Some text.now) (O.written out.old) (O.written out.new) }
{
    match rewritten(alloc, partition, text) {
        Ok(output) => match write_text(out, output.as_slice()) {
            Ok(()) => Status::Success,
            Err(fault) => Status::from(fault),
        },
        Err(refusal) => refusal,
    }
}

/// What a text is rewritten to.
fn rewritten(alloc: Global, partition: bool, text: &[u8]) -> Result<Vec<u8>, Status>
    requires { length text.now ≤ max_bytes }
    ensures ok { IfOk result (λ output. IsRewriting partition text.now Status.Success output.items) }
    ensures err { IfErr result (λ status. Refuses (IsRewriting partition text.now) status) }
{
    if partition {
        partitioned(alloc, text)
    } else {
        printed(alloc, text)
    }
}

/// The text of the partitioned module.
fn partitioned(alloc: Global, text: &[u8]) -> Result<Vec<u8>, Status>
    ensures ok { IfOk result (λ output. IsPartitioning text.now Status.Success output.items) }
    ensures err { IfErr result (λ status. Refuses (IsPartitioning text.now) status) }
{
    let Some(sum) = VectorSum::read(alloc, text)? else {
        return Err(Status::Unbuilt);
    };
    if !sum.is_divisible() {
        return Err(Status::Unbuilt);
    }
    Ok(sum.partitioned_text(alloc)?.into_bytes())
}
