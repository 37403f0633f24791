ghost use Rattle.std.specs.Prelude.{◌≡◌, ◌≤◌, IfOk, drop, length};
ghost use Rattle.std.specs.List.{prefix_len};
ghost use Rattle.sh_build.specs.Building.{AreSized};
ghost use Rattle.sh_build.specs.declared.parts.Part.TheVariants as part;
ghost use Rattle.sh_grammar.specs.Lexemes.{lexemes};
ghost use Rattle.sh_names.specs.Tables.{AreWithin, tooks};
ghost use Rattle.sh_parse.specs.Answers.{IsFileBy, aliases_by, is_before as stands_before, part_by};

use crate::maps::Maps;
use crate::rows::row_of;
use sh_base::{Items, Mem};
use sh_build::{Alias, rows_have_sizes};
use sh_grammar::{Event, Form};
use sh_ir::Module;
use sh_lex::Token;
use std::alloc::Global;

fn is_before(event: Event) -> bool
    ensures { result ≡ stands_before event }
{
    match event {
        Event::Opened {
            form: Form::Contents,
            ..
        } => false,
        _ => true,
    }
}

/// How many steps stand before the contents of a file.
fn steps_before(events: &[Event]) -> usize
    ensures within { result ≤ length events.now }
    ensures count { result ≡ prefix_len stands_before events.now }
{
    let mut rest = events;
    let mut count = 0;
    while let Some((event, more)) = rest.split_first() {
        if !is_before(*event) {
            return count;
        }
        count += 1;
        rest = more;
    }
    count
}

/// How many tokens the steps take.
fn tokens_in(events: &[Event]) -> usize
    ensures within { result ≤ length events.now }
    ensures count { result ≡ tooks events.now }
{
    let mut rest = events;
    let mut count = 0;
    while let Some((event, more)) = rest.split_first() {
        match *event {
            Event::Took => count += 1,
            Event::Opened { .. } => {}
        }
        rest = more;
    }
    count
}

/// The steps behind the first.
fn behind_first(events: &[Event]) -> &[Event]
    ensures { result.now ≡ drop 1 events.now }
{
    match events.split_first() {
        Some((_, rest)) => rest,
        None => events,
    }
}

/// The aliases at the head of a file, whose own names stand for no maps.
fn aliases(
    alloc: Global,
    text: &[u8],
    tokens: &[Token],
    ids: &[u32],
    events: &[Event],
) -> Result<Items<Alias>, Mem>
    requires within { AreWithin text.now tokens.now }
    requires tokens { tooks events.now ≡ length tokens.now }
    requires ids { length ids.now ≡ length tokens.now }
    requires sized { AreSized events.now }
    ensures { IfOk result (λ aliases.
        aliases ≡ aliases_by (lexemes text.now tokens.now) ids.now events.now) }
{
    let rest = behind_first(events);
    let (head, _) = rest.split_at(steps_before(rest));
    let count = tokens_in(head);
    let (tokens, _) = tokens.split_at(count);
    let (ids, _) = ids.split_at(count);
    let maps = Maps::none(alloc);
    let row = row_of(alloc, text, tokens, ids, &maps, head)?;
    Ok(row.into_first().aliases(alloc).into_items())
}

/// The module of a file, by its steps and the numbers of its tokens' names.
pub(crate) fn module_of(
    alloc: Global,
    text: &[u8],
    tokens: &[Token],
    ids: &[u32],
    events: &[Event],
) -> Result<Module, Mem>
    requires within { AreWithin text.now tokens.now }
    requires ids { length ids.now ≡ length tokens.now }
    requires file { IsFileBy (lexemes text.now tokens.now) events.now }
    ensures { IfOk result (λ m.
        part_by (lexemes text.now tokens.now) ids.now events.now ≡ part.Module m) }
{
    rows_have_sizes();
    let aliases = aliases(alloc, text, tokens, ids, events)?;
    let maps = Maps::new(alloc, aliases.as_slice())?;
    let row = row_of(alloc, text, tokens, ids, &maps, events)?;
    match row.into_module() {
        Some(module) => Ok(module),
        None => unreachable!(),
    }
}
