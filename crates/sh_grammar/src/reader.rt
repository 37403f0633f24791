ghost use Rattle.std.specs.Prelude.{◌≡◌, IfOk};
ghost use Rattle.sh_lex.specs.Tokens.{HasTokens};
ghost use Rattle.sh_grammar.specs.Answer.{IsReading};
ghost use Rattle.sh_grammar.specs.Laid.{the_symbols, the_starts, the_firsts, the_choices, the_rows, the_beginnings};
ghost use Rattle.sh_grammar.specs.Language.{language, text_of_file};
ghost use Rattle.sh_grammar.specs.Lexemes.{lexemes};

use crate::machine::run;
use crate::table::Table;
use crate::tables::{BEGINNINGS, CHOICES, FIRSTS, ROWS, STARTS, SYMBOLS};
use crate::{Beginning, Form, Reading, Symbol};
use sh_base::Mem;
use sh_lex::Token;
use std::alloc::Global;

/// Reads the tokens of a text by the grammar: a file and the end.
///
/// `Whole` has the steps of the one tree that the tokens spell. `Stopped` has the first token such
/// that the tokens up to and with it are no front of a file, its code, and the steps over the tokens
/// before it. The rules on names (an alias is new, a `#name` is an alias, a device item names the
/// function behind it) aren't asked here: they are read off the steps.
/// Each token costs a bounded number of steps, and nothing recurses on nesting.
pub fn read(alloc: Global, text: &[u8], tokens: &[Token]) -> Result<Reading, Mem>
    requires { HasTokens text.now tokens.now }
    ensures { IfOk result (IsReading language text_of_file (lexemes text.now tokens.now)) }
{
    run(alloc, &language_table(), Form::File, text, tokens)
}

/// The tables of the grammar.
fn language_table() -> Table<'static>
    ensures symbols { result.symbols.now ≡ the_symbols }
    ensures starts { result.starts.now ≡ the_starts }
    ensures firsts { result.firsts.now ≡ the_firsts }
    ensures choices { result.choices.now ≡ the_choices }
    ensures rows { result.rows.now ≡ the_rows }
    ensures beginnings { result.beginnings.now ≡ the_beginnings }
{
    Table {
        symbols: symbols(),
        starts: starts(),
        firsts: firsts(),
        choices: choices(),
        rows: rows(),
        beginnings: beginnings(),
    }
}

#[tactic(auto, unfolding(crate::specs::Laid::the_symbols))]
fn symbols() -> &'static [Symbol]
    ensures { result.now ≡ the_symbols }
{
    &SYMBOLS
}

#[tactic(auto, unfolding(crate::specs::Laid::the_starts))]
fn starts() -> &'static [u16]
    ensures { result.now ≡ the_starts }
{
    &STARTS
}

#[tactic(auto, unfolding(crate::specs::Laid::the_firsts))]
fn firsts() -> &'static [u16]
    ensures { result.now ≡ the_firsts }
{
    &FIRSTS
}

#[tactic(auto, unfolding(crate::specs::Laid::the_choices))]
fn choices() -> &'static [u16]
    ensures { result.now ≡ the_choices }
{
    &CHOICES
}

#[tactic(auto, unfolding(crate::specs::Laid::the_rows))]
fn rows() -> &'static [u16]
    ensures { result.now ≡ the_rows }
{
    &ROWS
}

#[tactic(auto, unfolding(crate::specs::Laid::the_beginnings))]
fn beginnings() -> &'static [Beginning]
    ensures { result.now ≡ the_beginnings }
{
    &BEGINNINGS
}
