ghost use Rattle.std.specs.Prelude.{◌≡◌, ◌-◌, ◌≤◌, IfOk, IfSome, List, drop, length, take};
ghost use Rattle.sh_build.specs.declared.parts.Alias.{Alias as AliasOf};
ghost use Rattle.sh_grammar.specs.Lexemes.{lexeme_of};
ghost use Rattle.std.specs.List.{prefix_len};
ghost use Rattle.sh_lex.specs.Tokens.{decimal_of, is_digit as is_digit_byte};
ghost use Rattle.sh_parse.specs.Leaves.{AreMapsOf, alias_of, dim_of, inside_of};
ghost use Rattle.sh_parse.specs.Reads.{leaf as leaf_of};

use crate::maps::Maps;
use sh_base::{Items, Mem, Text};
use sh_build::{Alias, Mark, Part};
use sh_ir::Dim;
use sh_lex::{Token, TokenKind};
use sh_names::bytes_of;
use std::alloc::Global;

/// The number that decimal digits stand for, where it is below 2^64.
fn decimal(digits: &[u8]) -> Option<u64>
    ensures { IfSome result (λ n. n ≡ decimal_of digits.now) }
{
    let mut number: u64 = 0;
    for digit in digits {
        let value = u64::from(digit.saturating_sub(b'0'));
        number = number.checked_mul(10)?.checked_add(value)?;
    }
    Some(number)
}

#[tactic(auto, unfolding(sh_lex::specs::Tokens::is_digit))]
fn is_digit(byte: u8) -> bool
    ensures { result ≡ is_digit_byte byte }
{
    byte.is_ascii_digit()
}

/// How many digits a text begins with.
fn digits_in(bytes: &[u8]) -> usize
    ensures within { result ≤ length bytes.now }
    ensures count { result ≡ prefix_len is_digit_byte bytes.now }
{
    let mut rest = bytes;
    let mut count = 0;
    while let Some((byte, more)) = rest.split_first() {
        if !is_digit(*byte) {
            return count;
        }
        count += 1;
        rest = more;
    }
    count
}

/// The extent that is written in a type.
fn dim(bytes: &[u8]) -> Result<Dim, Mem>
    ensures { IfOk result (λ dim. dim ≡ dim_of bytes.now) }
{
    if bytes == b"?x".as_slice() {
        return Ok(Dim::Differs);
    }
    let (digits, _) = bytes.split_at(digits_in(bytes));
    match decimal(digits) {
        Some(extent) => Ok(Dim::Known(extent)),
        None => Err(Mem),
    }
}

/// A text without its first byte.
fn behind_first(bytes: &[u8]) -> &[u8]
    ensures { result.now ≡ drop 1 bytes.now }
{
    match bytes.split_first() {
        Some((_, rest)) => rest,
        None => bytes,
    }
}

/// A text between its first byte and its last.
fn inside(bytes: &[u8]) -> &[u8]
    ensures { result.now ≡ inside_of bytes.now }
{
    let rest = behind_first(bytes);
    let (front, _) = rest.split_at(rest.len().saturating_sub(1));
    front
}

/// A text of its own.
fn text_of(alloc: Global, bytes: &[u8]) -> Result<Text, Mem>
    ensures { IfOk result (λ text. text ≡ bytes.now) }
{
    let mut text: Vec<u8> = Vec::new(alloc);
    text.extend_from_slice(bytes)?;
    Ok(Items::from_vec(text))
}

/// What an alias stands for.
fn alias(alloc: Global, name: &[u8], maps: &Maps) -> Result<Part, Mem>
    ensures { IfOk result (λ part. (aliases : List AliasOf) → AreMapsOf maps.now aliases
        → part ≡ alias_of aliases name.now) }
{
    let map = maps.map(alloc, name)?;
    let name = text_of(alloc, name)?;
    Ok(Part::Alias(Alias { name, map }))
}

/// What a token stands for, with the number of its name.
pub(crate) fn leaf(
    alloc: Global,
    text: &[u8],
    token: &Token,
    id: u32,
    maps: &Maps,
) -> Result<Part, Mem>
    requires order { token.now.start ≤ token.now.end }
    requires within { token.now.end ≤ length text.now }
    ensures { IfOk result (λ part. (aliases : List AliasOf) → AreMapsOf maps.now aliases
        → part ≡ leaf_of aliases (lexeme_of text.now token.now) id) }
{
    let bytes = bytes_of(text, token);
    match token.kind {
        TokenKind::At => Ok(Part::Symbol(text_of(alloc, behind_first(bytes))?)),
        TokenKind::Hash => alias(alloc, behind_first(bytes), maps),
        TokenKind::Number => match decimal(bytes) {
            Some(number) => Ok(Part::Number(number)),
            None => Err(Mem),
        },
        TokenKind::Dim => Ok(Part::Dim(dim(bytes)?)),
        TokenKind::Str => Ok(Part::Quoted(text_of(alloc, inside(bytes))?)),
        _ => Ok(Part::Mark(Mark {
            id,
            place: token.place,
        })),
    }
}
