ghost use Rattle.std.specs.Prelude.{◌≡◌, true, false, map, IfOk, IfErr, string_bytes};
ghost use Rattle.clap.specs.Words.{app_of, found_of, kind_of, matches_of, rows_of, rule_of};
ghost use Rattle.sh_words.specs.Commands.{bare_app, raw_rule, tool_app};
ghost use Rattle.sh_words.specs.Tables.{accepts};

use crate::Tool;
use clap::error::ErrorKind;
use clap::{Arg, ArgAction, ArgMatches, Command, Error};
use std::alloc::{AllocError, Global};

/// What clap finds in the words. On accepted words it fails for want of memory alone.
pub(crate) fn parse<'a>(
    alloc: Global,
    tool: Tool,
    words: &'a [String],
) -> Result<ArgMatches<'a>, Error>
    ensures rows { IfOk result (λ m. rows_of (found_of m)
        ≡ matches_of (tool_app tool) (map string_bytes words.entry.now)) }
    ensures memory { IfErr result (λ e. accepts tool (map string_bytes words.entry.now) ≡ true
        → kind_of e ≡ ErrorKind.OutOfMemory) }
{
    let command = command_of(alloc, tool)?;
    command.try_get_matches_from(words)
}

/// The program's command for clap.
fn command_of<'a>(alloc: Global, tool: Tool) -> Result<Command<'a>, AllocError>
    ensures { IfOk result (λ c. app_of c ≡ tool_app tool) }
{
    match tool {
        Tool::Opt => opt_command(alloc),
        Tool::Run => run_command(alloc),
    }
}

/// The command of `shard-opt`.
fn opt_command<'a>(alloc: Global) -> Result<Command<'a>, AllocError>
    ensures { IfOk result (λ c. app_of c ≡ tool_app Tool.Opt) }
{
    let command = bare_command(alloc, "shard-opt")
        .arg(option(alloc, "propagate"))?
        .arg(flag(alloc, "partition"))?
        .arg(flag(alloc, "simplify"))?
        .arg(flag(alloc, "halo-to-shift"))?;
    Ok(command)
}

/// The command of `shard-run`.
fn run_command<'a>(alloc: Global) -> Result<Command<'a>, AllocError>
    ensures { IfOk result (λ c. app_of c ≡ tool_app Tool.Run) }
{
    let command = bare_command(alloc, "shard-run")
        .arg(option(alloc, "order"))?
        .arg(option(alloc, "turns"))?
        .arg(flag(alloc, "trace"))?
        .arg(flag(alloc, "device"))?
        .arg(option(alloc, "generate"))?
        .arg(option(alloc, "size"))?;
    Ok(command)
}

/// A command that reads no program's name and has no help.
fn bare_command<'a>(alloc: Global, name: &'a str) -> Command<'a>
    ensures { app_of result ≡ bare_app name.entry.now }
{
    Command::new(alloc, name)
        .no_binary_name(true)
        .disable_help_flag(true)
}

/// `--name=value`.
fn option<'a>(alloc: Global, name: &'a str) -> Arg<'a>
    ensures rule { rule_of result ≡ raw_rule (name.entry.now, true) }
    ensures local { result.global ≡ false }
{
    Arg::new(alloc, name).long(name).action(ArgAction::Set)
}

/// `--name`.
fn flag<'a>(alloc: Global, name: &'a str) -> Arg<'a>
    ensures rule { rule_of result ≡ raw_rule (name.entry.now, false) }
    ensures local { result.global ≡ false }
{
    Arg::new(alloc, name).long(name).action(ArgAction::SetTrue)
}
