ghost use Rattle.std.specs.Prelude.{◌≡◌, ◌≤◌, length, map, nat_eq};
ghost use Rattle.std.specs.List.{list_any, starts_with};
ghost use Rattle.sh_grammar.specs.Lexemes.{lexeme_of};
ghost use Rattle.sh_grammar.specs.LeftOut.{rule_of, is_left_out, is_left_out_word, is_integer_type, are_digits, is_among, left_out_words, left_out_beginnings, left_out_signs, integer_beginnings, widths};

use crate::lexemes::bytes_of;
use sh_base::Rule;
use sh_lex::{Token, TokenKind};

static LEFT_OUT_WORDS: [&str; 16] = [
    "f16",
    "bf16",
    "f32",
    "f64",
    "index",
    "vector",
    "memref",
    "complex",
    "overflow",
    "loc",
    "attributes",
    "dense_resource",
    "linalg.map",
    "tensor.pad",
    "tensor.concat",
    "tensor.splat",
];

static LEFT_OUT_BEGINNINGS: [&str; 3] = ["scf.", "cf.", "linalg.pooling"];

static LEFT_OUT_SIGNS: [&str; 2] = ["+", "*"];

static INTEGER_BEGINNINGS: [&str; 3] = ["i", "si", "ui"];

static WIDTHS: [&str; 5] = ["i1", "i8", "i16", "i32", "i64"];

/// The code of a refused token, by whether an operation is due at it: `P3` where it belongs to a form
/// that is left out by name, else `P2` where it is a word and an operation is due, else `P1`.
pub(crate) fn rule_of(text: &[u8], token: &Token, due: bool) -> Rule
    requires order { token.now.start ≤ token.now.end }
    requires within { token.now.end ≤ length text.now }
    ensures { result ≡ rule_of due (lexeme_of text.now token.now) }
{
    if is_left_out(due, token.kind, bytes_of(text, token)) {
        Rule::P3
    } else if due && matches!(token.kind, TokenKind::Word) {
        Rule::P2
    } else {
        Rule::P1
    }
}

fn is_left_out(due: bool, kind: TokenKind, text: &[u8]) -> bool
    ensures { result ≡ is_left_out due kind text.now }
{
    match kind {
        TokenKind::Word => is_left_out_word(text),
        TokenKind::Sign => is_among(the_left_out_signs(), text),
        TokenKind::Str => due,
        _ => false,
    }
}

fn is_left_out_word(word: &[u8]) -> bool
    ensures { result ≡ is_left_out_word word.now }
{
    is_among(the_left_out_words(), word)
        || begins_with_one(the_left_out_beginnings(), word)
        || (is_integer_type(word) && !is_among(the_widths(), word))
}

/// Whether this is `i`, `si` or `ui`, and then digits.
fn is_integer_type(word: &[u8]) -> bool
    ensures { result ≡ is_integer_type word.now }
{
    for begin in the_integer_beginnings() {
        if word.starts_with(begin.as_bytes()) && are_digits(&word[begin.len()..]) {
            return true;
        }
    }
    false
}

/// Whether these are one or more digits.
fn are_digits(bytes: &[u8]) -> bool
    ensures { result ≡ are_digits bytes.now }
{
    for byte in bytes {
        if !byte.is_ascii_digit() {
            return false;
        }
    }
    !bytes.is_empty()
}

fn is_among(texts: &[&str], text: &[u8]) -> bool
    ensures { result ≡ is_among (map (λ w. w.now) texts.now) text.now }
{
    for other in texts {
        if text == other.as_bytes() {
            return true;
        }
    }
    false
}

fn begins_with_one(beginnings: &[&str], text: &[u8]) -> bool
    ensures { result ≡ list_any (starts_with nat_eq text.now) (map (λ w. w.now) beginnings.now) }
{
    for begin in beginnings {
        if text.starts_with(begin.as_bytes()) {
            return true;
        }
    }
    false
}

#[tactic(auto, unfolding(crate::specs::LeftOut::left_out_words))]
fn the_left_out_words() -> &'static [&'static str]
    ensures { map (λ w. w.now) result.now ≡ left_out_words }
{
    &LEFT_OUT_WORDS
}

#[tactic(auto, unfolding(crate::specs::LeftOut::left_out_beginnings))]
fn the_left_out_beginnings() -> &'static [&'static str]
    ensures { map (λ w. w.now) result.now ≡ left_out_beginnings }
{
    &LEFT_OUT_BEGINNINGS
}

#[tactic(auto, unfolding(crate::specs::LeftOut::left_out_signs))]
fn the_left_out_signs() -> &'static [&'static str]
    ensures { map (λ w. w.now) result.now ≡ left_out_signs }
{
    &LEFT_OUT_SIGNS
}

#[tactic(auto, unfolding(crate::specs::LeftOut::integer_beginnings))]
fn the_integer_beginnings() -> &'static [&'static str]
    ensures { map (λ w. w.now) result.now ≡ integer_beginnings }
{
    &INTEGER_BEGINNINGS
}

#[tactic(auto, unfolding(crate::specs::LeftOut::widths))]
fn the_widths() -> &'static [&'static str]
    ensures { map (λ w. w.now) result.now ≡ widths }
{
    &WIDTHS
}
