ghost use Rattle.std.specs.Prelude.{IfOk};
ghost use Rattle.sh_grammar.specs.Lexemes.{lexemes};
ghost use Rattle.sh_names.specs.Tables.{AreWithin, IsPassed};

use crate::lexemes::bytes_of;
use crate::passing::Pass;
use crate::scopes::Scope;
use sh_base::Mem;
use sh_grammar::Event;
use sh_lex::Token;
use std::alloc::Global;

/// What the names of a text come to.
#[derive(Drop)]
pub enum Named {
    /// They keep the rules, and these are the numbers of the tokens' names.
    Kept(Vec<u32>),
    /// The token with this number, from 0, is the first that breaks a rule.
    Broken(usize),
}

/// The numbers of the names of some tokens, over the steps that take them, or the first token that
/// breaks a rule on names: an alias is new, a `#name` in maps is an alias, and a device item names
/// the function behind it.
pub fn number_names(
    alloc: Global,
    text: &[u8],
    tokens: &[Token],
    events: &[Event],
) -> Result<Named, Mem>
    requires { AreWithin text.now tokens.now }
    ensures { IfOk result (IsPassed events.now (lexemes text.now tokens.now)) }
{
    let mut pass = Pass::new(alloc);
    let mut scope = Scope::at_start();
    let mut events = events;
    let mut tokens = tokens;
    while let Some((event, more)) = events.split_first() {
        events = more;
        let at = pass.ids.len();
        match *event {
            Event::Opened { form, .. } => scope = scope.open(at, form),
            Event::Took => {
                let Some((token, behind)) = tokens.split_first() else {
                    return Ok(Named::Kept(pass.ids));
                };
                tokens = behind;
                let bytes = bytes_of(text, token);
                if !pass.take(scope.role(token.kind), bytes, scope)? {
                    return Ok(Named::Broken(at));
                }
                scope = scope.pass(token.kind);
            }
        }
    }
    Ok(Named::Kept(pass.ids))
}
