ghost use Rattle.std.specs.Prelude.{◌≡◌, ◌≢◌, ◌≤◌, ◌⊎◌, List, IfOk, IfErr, IsErrAnd, MatchResult, length};
ghost use Rattle.sh_base.specs.Limits.{max_bytes};
ghost use Rattle.sh_lex.specs.declared.tokens.LexRefusal.{LexRefusal};
ghost use Rattle.sh_lex.specs.declared.tokens.Token.{Token};
ghost use Rattle.sh_lex.specs.Scan.{IsAt};
ghost use Rattle.sh_lex.specs.Tokens.{HasTokens, IsEnd, IsNext, IsRefused, IsStopped};

use crate::fronts::front;
use crate::gaps::gap_len;
use crate::positions::{Position, past};
use crate::{LexRefusal, Token, TokenKind};
use sh_base::Place;
use std::alloc::Global;

/// The next token and the position behind it.
fn next_token(text: &[u8], from: Position) -> Result<(Token, Position), LexRefusal>
    requires at { IsAt text.now from }
    requires small { length text.now ≤ max_bytes }
    ensures next { IfOk result (λ t. t.0.kind ≢ TokenKind.End → IsNext text.now from.offset t.0) }
    ensures end { IfOk result (λ t. t.0.kind ≡ TokenKind.End → IsEnd text.now from.offset t.0) }
    ensures after { IfOk result (λ t. IsAt text.now t.1 × (t.1.offset ≡ t.0.end)) }
    ensures stopped { IfErr result (λ why. IsStopped text.now from.offset why) }
{
    let (_, rest) = text.split_at(from.offset as usize);
    let start = past(text, from, gap_len(rest));
    let (_, rest) = text.split_at(start.offset as usize);
    if rest.is_empty() {
        return Ok((token(TokenKind::End, start, start), start));
    }
    let (kind, len) = front(rest, start.place)?;
    let end = past(text, start, len);
    Ok((token(kind, start, end), end))
}

/// The token that begins and ends at these positions.
fn token(kind: TokenKind, start: Position, end: Position) -> Token
    ensures { result ≡ record { kind = kind; start = start.offset; end = end.offset; place = start.place } }
{
    Token {
        kind,
        start: start.offset,
        end: end.offset,
        place: start.place,
    }
}

/// The tokens of the text, the last of which is `End`.
///
/// A text has no tokens where a byte begins none (`BadByte`), a string isn't closed on its line or has a `\`
/// (`OpenString`), or a number isn't below 2^64 (`NumberTooWide`): the answer is the first of these, and its place
/// that of the first byte of the token that was due. `Mem` comes where memory runs out. docs/LANGUAGE.md says which
/// bytes each kind of token has.
pub fn lex(alloc: Global, text: &[u8]) -> Result<Vec<Token>, LexRefusal>
    requires { length text.now ≤ max_bytes }
    ensures tokens { IfOk result (λ tokens. HasTokens text.now tokens.items) }
    ensures refused { IfErr result (λ why. why ≢ LexRefusal.Mem → IsRefused text.now why) }

    // A text that has tokens isn't refused, and one that has none is, with the first fault.
    ensures all_tokens { (tokens : List Token) → HasTokens text.now tokens →
        MatchResult result (λ found. found.items ≡ tokens) (λ why. why ≡ LexRefusal.Mem) }
    ensures first_fault { (fault : LexRefusal) → IsRefused text.now fault →
        IsErrAnd result (λ why. (why ≡ fault) ⊎ (why ≡ LexRefusal.Mem)) }
{
    let mut tokens = Vec::new(alloc);
    let mut from = Position {
        offset: 0,
        place: Place { line: 1, column: 1 },
    };
    loop {
        let (token, behind) = next_token(text, from)?;
        tokens.push(token)?;
        match token.kind {
            TokenKind::End => return Ok(tokens),
            _ => from = behind,
        }
    }
}
