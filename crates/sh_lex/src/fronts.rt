ghost use Rattle.std.specs.Prelude.{◌≡◌, ◌↔◌, ◌^◌, ◌<◌, ◌≤◌, IsTrue, length};
ghost use Rattle.sh_lex.specs.Scan.{Leads, IsReading};
ghost use Rattle.sh_lex.specs.Tokens.{decimal_of};

use crate::bytes::{Class, Lead, class_of, lead_of, run_len};
use crate::{LexRefusal, TokenKind};
use sh_base::Place;

/// Whether the number that the digits stand for is below 2^64.
fn is_narrow(digits: &[u8]) -> bool
    ensures { IsTrue result ↔ (decimal_of digits.now < 2 ^ 64) }
{
    const TOO_WIDE: u128 = 1 << 64;
    let mut value: u128 = 0;
    for digit in digits {
        // A number that is too wide stays so.
        value = (value * 10 + u128::from(digit.saturating_sub(b'0'))).min(TOO_WIDE);
    }
    value < TOO_WIDE
}

/// The token or the fault at the front, which is a mark.
fn name(rest: &[u8], kind: TokenKind, place: Place) -> Result<(TokenKind, usize), LexRefusal>
    requires { Leads (Lead.Mark kind) rest.now }
    ensures { IsReading rest.now place result }
{
    let (_, behind) = rest.split_at(1);
    let len = run_len(behind, class_of(kind));
    if len == 0 {
        return Err(LexRefusal::BadByte { place });
    }
    Ok((kind, len + 1))
}

/// The token or the fault at the front, which is a digit.
fn number(rest: &[u8], place: Place) -> Result<(TokenKind, usize), LexRefusal>
    requires { Leads Lead.Digit rest.now }
    ensures { IsReading rest.now place result }
{
    let len = run_len(rest, Class::Digits);
    let (digits, behind) = rest.split_at(len);
    if !is_narrow(digits) {
        return Err(LexRefusal::NumberTooWide { place });
    }
    if behind.starts_with(b"x") {
        return Ok((TokenKind::Dim, len + 1));
    }
    Ok((TokenKind::Number, len))
}

/// The token or the fault at the front, which is a `?`.
fn unknown_dim(rest: &[u8], place: Place) -> Result<(TokenKind, usize), LexRefusal>
    requires { Leads Lead.Question rest.now }
    ensures { IsReading rest.now place result }
{
    if !rest.starts_with(b"?x") {
        return Err(LexRefusal::BadByte { place });
    }
    Ok((TokenKind::Dim, 2))
}

/// The token or the fault at the front, which is a quote.
fn string(rest: &[u8], place: Place) -> Result<(TokenKind, usize), LexRefusal>
    requires { Leads Lead.Quote rest.now }
    ensures { IsReading rest.now place result }
{
    let (_, inside) = rest.split_at(1);
    let len = run_len(inside, Class::Inside);
    let (_, behind) = inside.split_at(len);
    if !behind.starts_with(b"\"") {
        return Err(LexRefusal::OpenString { place });
    }
    Ok((TokenKind::Str, len + 2))
}

/// The token at the front of the rest and its length, or what is wrong there.
pub(crate) fn front(rest: &[u8], place: Place) -> Result<(TokenKind, usize), LexRefusal>
    requires { 0 < length rest.now }
    ensures { IsReading rest.now place result }
{
    match lead_of(rest[0]) {
        Lead::Letter => Ok((TokenKind::Word, run_len(rest, Class::Name))),
        Lead::Mark(kind) => name(rest, kind, place),
        Lead::Digit => number(rest, place),
        Lead::Question => unknown_dim(rest, place),
        Lead::Quote => string(rest, place),
        Lead::Punctuation if rest.starts_with(b"->") => Ok((TokenKind::Sign, 2)),
        Lead::Punctuation => Ok((TokenKind::Sign, 1)),
        Lead::Other => Err(LexRefusal::BadByte { place }),
    }
}
