ghost use Rattle.std.specs.Prelude.{◌≡◌, ◌<◌, ◌≤◌, ◌^◌, length, map};
ghost use Rattle.sh_grammar.specs.Laid.{the_spellings, the_classes, the_spelling_rows};
ghost use Rattle.sh_grammar.specs.Lexemes.{class_of_kind, class_in, class_of, lexeme_of};
ghost use Rattle.sh_grammar.specs.Views.{row_of, spelled};

use crate::lexemes::bytes_of;
use crate::table::piece;
use crate::tables::{CLASSES, SPELLING_ROWS, SPELLINGS};
use sh_lex::{Token, TokenKind};

/// All words of the language are shorter.
const LONG: usize = 32;

/// The class of a token: that of a keyword, in either spelling, or that of the other tokens of its
/// kind. Only keywords of the same kind and, of words, the same length are compared.
pub(crate) fn class_of_token(text: &[u8], token: &Token) -> u16
    requires order { token.now.start ≤ token.now.end }
    requires within { token.now.end ≤ length text.now }
    ensures { result ≡ class_of (lexeme_of text.now token.now) }
{
    let bytes = bytes_of(text, token);
    let row = row_of(token.kind, bytes.len());
    let rows = spelling_rows();
    let spellings = piece(spellings(), rows, row);
    let classes = piece(classes(), rows, row);
    class_in(spellings, classes, bytes, class_of_kind(token.kind))
}

/// The class of the tokens of a kind that are no keywords.
fn class_of_kind(kind: TokenKind) -> u16
    ensures { result ≡ class_of_kind kind }
{
    kind as u16
}

/// The row in which the spellings of a kind and a length stand. One row is empty.
fn row_of(kind: TokenKind, length: usize) -> usize
    ensures { result ≡ row_of kind length }
{
    match kind {
        TokenKind::Word if length < LONG => length,
        TokenKind::Sign => 33,
        TokenKind::Dim => 34,
        TokenKind::Bang => 35,
        TokenKind::Hash => 36,
        _ => LONG,
    }
}

/// The class of a text among these texts, or else `other`.
fn class_in(texts: &[&str], classes: &[u16], text: &[u8], other: u16) -> u16
    requires { length texts.now ≤ length classes.now }
    ensures { result ≡ class_in (spelled (map (λ w. w.now) texts.now) classes.now) text.now other }
{
    for (i, spelling) in texts.iter().enumerate() {
        if spelling.as_bytes() == text {
            return classes[i];
        }
    }
    other
}

#[tactic(auto, unfolding(crate::specs::Laid::the_spellings))]
fn spellings() -> &'static [&'static str]
    ensures { map (λ w. w.now) result.now ≡ the_spellings }
{
    &SPELLINGS
}

#[tactic(auto, unfolding(crate::specs::Laid::the_classes))]
fn classes() -> &'static [u16]
    ensures { result.now ≡ the_classes }
{
    &CLASSES
}

#[tactic(auto, unfolding(crate::specs::Laid::the_spelling_rows))]
fn spelling_rows() -> &'static [u16]
    ensures { result.now ≡ the_spelling_rows }
{
    &SPELLING_ROWS
}
