ghost use Rattle.std.specs.Prelude.{◌≡◌, ◌⊎◌, ◌<◌, ℕ, Some, IfErr, IfOk, IsErrAnd, MatchResult, length, slice_get};
ghost use Rattle.sh_base.specs.declared.rules.Rule.{Rule as RuleOf};
ghost use Rattle.sh_grammar.specs.Answer.{Accepts, Refuses};
ghost use Rattle.sh_grammar.specs.Language.{language, text_of_file};
ghost use Rattle.sh_grammar.specs.Lexemes.{Lexeme, lexemes};
ghost use Rattle.sh_ir.specs.Formed.{IsFormed};
ghost use Rattle.sh_ir.specs.declared.modules.Module.{Module as ModuleOf};
ghost use Rattle.sh_lex.specs.Tokens.{HasTokens};
ghost use Rattle.sh_lex.specs.declared.tokens.Token.{Token as TokenOf};
ghost use Rattle.sh_parse.specs.Answers.{IsRefusal};
ghost use Rattle.sh_parse.specs.Reads.{IsRefusedAt, Reads, TokensRead};
ghost use Rattle.sh_parse.specs.declared.refusals.ParseRefusal.TheVariants.{At, Mem as MemRefusal};

use crate::ParseRefusal;
use crate::parts::module_of;
use sh_base::{Refusal, Rule};
use sh_grammar::{Event, Reading, Stop, read};
use sh_ir::Module;
use sh_lex::Token;
use sh_names::{Named, number_names};
use std::alloc::Global;

/// The module that a text stands for, by its tokens.
///
/// A text stands for no module where its tokens are no file by the grammar, or where a name breaks
/// a rule: an alias is new, a `#name` in maps is an alias, and a device item names the function
/// behind it. The refusal is at the first token with which no text goes on to a module, and is `P1`
/// for a rule on names. docs/LANGUAGE.md has the grammar.
pub fn parse(alloc: Global, text: &[u8], tokens: &[Token]) -> Result<Module, ParseRefusal>
    requires { HasTokens text.now tokens.now }
    ensures module { IfOk result (λ m. Reads text.now m) }
    ensures formed { IfOk result (λ m. IsFormed m) }
    ensures refused { IfErr result (λ why. IsRefusal (lexemes text.now tokens.now) why) }

    // A text that stands for a module isn't refused, and one that stands for none is, at one place
    // and with one code.
    ensures all_modules { (m : ModuleOf) → Reads text.now m →
        MatchResult result (λ found. found ≡ m) (λ why. why ≡ MemRefusal) }
    ensures all_refusals { (i : ℕ) (t : Lexeme) (rule : RuleOf) →
        IsRefusedAt (lexemes text.now tokens.now) i t rule →
        IsErrAnd result (λ why.
        (why ≡ At (record { place = t.place; rule = rule })) ⊎ (why ≡ MemRefusal)) }
{
    answer(alloc, text, tokens)
}

/// The answer by the grammar, and by the names over the steps that it gives.
fn answer(alloc: Global, text: &[u8], tokens: &[Token]) -> Result<Module, ParseRefusal>
    requires { HasTokens text.now tokens.now }
    ensures module { IfOk result (λ m. TokensRead (lexemes text.now tokens.now) m) }
    ensures refused { IfErr result (λ why. IsRefusal (lexemes text.now tokens.now) why) }
{
    match read(alloc, text, tokens)? {
        Reading::Whole(events) => whole(alloc, text, tokens, events.as_slice()),
        Reading::Stopped(stop) => Err(stopped(alloc, text, tokens, &stop)),
    }
}

/// The refusal at a token.
fn refusal_at(tokens: &[Token], at: usize, rule: Rule) -> ParseRefusal
    requires { at < length tokens.now }
    ensures { (t : TokenOf) → slice_get tokens.now at ≡ Some t →
        result ≡ At (record { place = t.place; rule = rule }) }
{
    let place = tokens[at].place;
    ParseRefusal::At(Refusal { place, rule })
}

/// The answer to tokens that are a file, with the steps of their tree.
fn whole(
    alloc: Global,
    text: &[u8],
    tokens: &[Token],
    events: &[Event],
) -> Result<Module, ParseRefusal>
    requires tokens { HasTokens text.now tokens.now }
    requires file { Accepts language text_of_file (lexemes text.now tokens.now) events.now }
    ensures module { IfOk result (λ m. TokensRead (lexemes text.now tokens.now) m) }
    ensures refused { IfErr result (λ why. IsRefusal (lexemes text.now tokens.now) why) }
{
    match number_names(alloc, text, tokens, events)? {
        Named::Broken(at) => Err(refusal_at(tokens, at, Rule::P1)),
        Named::Kept(ids) => Ok(module_of(alloc, text, tokens, ids.as_slice(), events)?),
    }
}

/// The refusal of tokens that are no file: where the grammar refuses them, or a name before that
/// breaks a rule.
fn stopped(alloc: Global, text: &[u8], tokens: &[Token], stop: &Stop) -> ParseRefusal
    requires tokens { HasTokens text.now tokens.now }
    requires stop { Refuses language text_of_file (lexemes text.now tokens.now) stop.now.token
        stop.now.rule stop.now.events.items }
    ensures { IsRefusal (lexemes text.now tokens.now) result }
{
    let (front, _) = tokens.split_at(stop.token);
    match number_names(alloc, text, front, stop.events.as_slice()) {
        Ok(Named::Broken(at)) => refusal_at(tokens, at, Rule::P1),
        Ok(Named::Kept(_)) => refusal_at(tokens, stop.token, stop.rule),
        Err(_) => ParseRefusal::Mem,
    }
}
