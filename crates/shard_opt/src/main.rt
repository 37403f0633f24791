//! `shard-opt`: reads a module from standard input and writes it, rewritten, to standard output.
#![tactic(auto)]

use sh_base::Mem;
use sh_cli::{Tool, shard_main};
use sh_io::{StdSink, StdSource};
use std::env;
use std::io::ErrorKind;
use std::process::ExitCode;
use std::rt::Env;

fn main(rt: HostRuntime) -> ExitCode {
    let Ok(words) = read_words(&rt) else {
        let _ = rt.eprintln("shard-opt: error 13 memory");
        return ExitCode::from(13);
    };
    let mut src = StdSource::new(rt.stdin());
    let mut out = StdSink::new(rt.stdout());
    let mut err = StdSink::new(rt.stderr());
    let status = shard_main(rt.alloc(), Tool::Opt, &words, &mut src, &mut out, &mut err);
    ExitCode::from(status.code())
}

/// The command words, the program's name left out.
fn read_words(rt: &(impl Env + AllocGlobal)) -> Result<Vec<String>, Mem> {
    match env::args(rt) {
        Ok(args) => Ok(args.skip(1).collect(rt.alloc())?),
        Err(error) if error.kind() == ErrorKind::OutOfMemory => Err(Mem),
        // A word that is no text is none of the accepted ones.
        Err(_) => Ok(vec![in rt.alloc(); String::from_str(rt.alloc(), "?")?]?),
    }
}
