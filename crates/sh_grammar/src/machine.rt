ghost use Rattle.std.specs.Prelude.{◌≡◌, ◌++◌, ◌≤◌, ◌<◌, ◌^◌, suc, length, map, reverse, slice_get, [], ◌∷◌, None, IfSome, IfNone, IfOk, OnOk, IsTrue, List, ℕ};
ghost use Rattle.std.specs.Bool.{OnTrue, OnFalse};
ghost use Rattle.sh_grammar.specs.Grammar.{IsAlternative};
ghost use Rattle.sh_lex.specs.Tokens.{HasTokens};
ghost use Rattle.sh_grammar.specs.Answer.{IsReading};
ghost use Rattle.sh_grammar.specs.Lexemes.{lexeme_of, lexemes};
ghost use Rattle.sh_grammar.specs.Predictive.{choice, Facts, is_predictive, may_begin_operation, serves};
ghost use Rattle.sh_grammar.specs.Machine.{IsApt, IsMoved, IsStuck, Grows, whole};
ghost use Rattle.sh_grammar.specs.Layout.{rules_of, choices_of};
ghost use Rattle.sh_grammar.specs.Views.{stack_of, beginning_of};

use crate::keywords::class_of_token;
use crate::left_out::rule_of;
use crate::table::Table;
use crate::{Beginning, Event, Form, Reading, Stop, Symbol};
use sh_base::Mem;
use sh_lex::{Token, TokenKind};
use std::alloc::{AllocError, Global};

/// The alternative that the table takes for a form before a token.
fn chosen<'a>(table: &Table<'a>, form: Form, class: u16) -> Option<(u16, &'a [Symbol])>
    ensures some { IfSome result (λ r. IsAlternative (rules_of table.now) form r.0 r.1.now) }
    ensures taken { IfSome result (λ r. choice (choices_of table.now) form class ≡ suc r.0) }
    ensures short { IfSome result (λ r. length r.1.now < 2 ^ 16) }
    ensures none { IfNone result ((i : ℕ) → choice (choices_of table.now) form class ≡ suc i →
        slice_get (rules_of table.now form) i ≡ None) }
{
    let choice = table.choice(form, class);
    if choice == 0 {
        return None;
    }
    let number = choice - 1;
    match table.body(form, number) {
        None => None,
        Some(body) => Some((number, body)),
    }
}

/// Puts the symbols of a body on top of a stack, the first one topmost.
fn push_body(stack: &mut Vec<Symbol>, body: &[Symbol]) -> Result<(), AllocError>
    ensures { OnOk result (stack.new.items ≡ stack.old.items ++ reverse body.now) }
{
    for symbol in body.iter().rev() {
        stack.push(*symbol)?;
    }
    Ok(())
}

/// Takes a token from what the stack has still to read, or says that it can't come next.
pub(crate) fn take_token(
    table: &Table,
    text: &[u8],
    token: &Token,
    stack: &mut Vec<Symbol>,
    events: &mut Vec<Event>,
) -> Result<bool, AllocError>
    ghost facts: { List Facts }
    requires order { token.now.start ≤ token.now.end }
    requires within { token.now.end ≤ length text.now }
    requires predictive { IsTrue (is_predictive (rules_of table.now) (choices_of table.now) facts) }
    requires apt { IsApt facts (stack_of stack.old.items) }
    ensures taken { IfOk result (λ b. OnTrue b (IsMoved (rules_of table.now) facts
        (stack_of stack.old.items) (lexeme_of text.now token.now ∷ []) events.old.items
        (stack_of stack.new.items) events.new.items)) }
    ensures grown { IfOk result (λ _. Grows events.old.items events.new.items) }
    ensures stuck { IfOk result (λ b. OnFalse b (IsStuck (rules_of table.now)
        (stack_of stack.old.items) (lexeme_of text.now token.now))) }
{
    let class = class_of_token(text, token);
    while let Some(symbol) = stack.pop() {
        match symbol {
            Symbol::Class(wanted) => {
                if wanted != class {
                    return Ok(false);
                }
                events.push(Event::Took)?;
                return Ok(true);
            }
            Symbol::Part(form) => match chosen(table, form, class) {
                None => return Ok(false),
                Some((alternative, body)) => {
                    events.push(Event::Opened {
                        form,
                        alternative,
                        size: body.len() as u16,
                    })?;
                    push_body(stack, body)?;
                }
            },
        }
    }
    Ok(false)
}

/// Whether an operation may begin what the stack has still to read.
fn is_operation_due(table: &Table, stack: &[Symbol]) -> bool
    ghost facts: { List Facts }
    requires { table.now.beginnings.now ≡ map beginning_of facts }
    ensures { result ≡ may_begin_operation facts (stack_of stack.now) }
{
    let mut at = stack.len();
    while at > 0 {
        at -= 1;
        match stack[at] {
            Symbol::Class(_) => return false,
            Symbol::Part(form) => match table.beginning(form) {
                Beginning::Operation => return true,
                Beginning::Empty => {}
                Beginning::Other => return false,
            },
        }
    }
    false
}

/// Reads the tokens of a text as a form and the end.
pub(crate) fn run(
    alloc: Global,
    table: &Table,
    start: Form,
    text: &[u8],
    tokens: &[Token],
) -> Result<Reading, Mem>
    ghost facts: { List Facts }
    requires tokens { HasTokens text.now tokens.now }
    requires beginnings { table.now.beginnings.now ≡ map beginning_of facts }
    requires serves { IsTrue (serves (rules_of table.now) (choices_of table.now) facts start 10) }
    ensures { IfOk result (IsReading (rules_of table.now) (whole start 10)
        (lexemes text.now tokens.now)) }
{
    let mut stack = Vec::new(alloc);
    let mut events = Vec::new(alloc);
    stack.push(Symbol::Class(TokenKind::End as u16))?;
    stack.push(Symbol::Part(start))?;
    for (i, token) in tokens.iter().enumerate() {
        let due = is_operation_due(table, &stack);
        let before = events.len();
        if !take_token(table, text, token, &mut stack, &mut events)? {
            events.truncate(before);
            let rule = rule_of(text, token, due);
            return Ok(Reading::Stopped(Stop {
                events,
                token: i,
                rule,
            }));
        }
    }
    Ok(Reading::Whole(events))
}
