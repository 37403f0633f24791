ghost use Rattle.std.specs.Prelude.{◌≡◌, ◌≤◌, length};
ghost use Rattle.std.specs.List.{prefix_len};
ghost use Rattle.sh_lex.specs.Scan.{is_in, lead_of, class_of};
ghost use Rattle.sh_lex.specs.Tokens.{is_letter, is_digit, is_name_byte, is_blank, is_sign_byte};

use crate::TokenKind;

/// Bytes of which a token or a comment has a run.
#[derive(Clone, Copy)]
pub(crate) enum Class {
    Name,
    ValueName,
    Digits,
    Inside,
    Line,
}

/// What can begin with a byte.
#[derive(Clone, Copy)]
pub(crate) enum Lead {
    Letter,
    /// The mark of a name of this kind.
    Mark(TokenKind),
    Digit,
    Question,
    Quote,
    Punctuation,
    Other,
}

#[tactic(auto, unfolding(crate::specs::Tokens::is_blank))]
pub(crate) fn is_blank(byte: u8) -> bool
    ensures { result ≡ is_blank byte }
{
    byte == b' ' || byte == b'\t' || byte == b'\r' || byte == b'\n'
}

#[tactic(auto, unfolding(crate::specs::Tokens::is_letter))]
fn is_letter(byte: u8) -> bool
    ensures { result ≡ is_letter byte }
{
    byte.is_ascii_alphabetic() || byte == b'_'
}

#[tactic(auto, unfolding(crate::specs::Tokens::is_digit))]
fn is_digit(byte: u8) -> bool
    ensures { result ≡ is_digit byte }
{
    byte.is_ascii_digit()
}

#[tactic(auto, unfolding(crate::specs::Tokens::is_name_byte))]
fn is_name_byte(byte: u8) -> bool
    ensures { result ≡ is_name_byte byte }
{
    is_letter(byte) || is_digit(byte) || byte == b'.' || byte == b'$'
}

#[tactic(auto, unfolding(crate::specs::Tokens::is_sign_byte))]
fn is_sign_byte(byte: u8) -> bool
    ensures { result ≡ is_sign_byte byte }
{
    b"(){}[]<>,:=+*-".contains(&byte)
}

/// Whether the byte is of the class.
#[tactic(auto, unfolding(crate::specs::Tokens::is_value_byte, crate::specs::Tokens::is_string_byte, crate::specs::Tokens::is_line_byte))]
fn is_in(class: Class, byte: u8) -> bool
    ensures { result ≡ is_in class byte }
{
    match class {
        Class::Name => is_name_byte(byte),
        Class::ValueName => is_name_byte(byte) || byte == b'-',
        Class::Digits => is_digit(byte),
        Class::Inside => byte != b'"' && byte != b'\\' && byte != b'\n',
        Class::Line => byte != b'\n',
    }
}

/// What can begin with the byte.
#[tactic(auto, unfolding(crate::specs::Scan::lead_of))]
pub(crate) fn lead_of(byte: u8) -> Lead
    ensures { result ≡ lead_of byte }
{
    if is_letter(byte) {
        return Lead::Letter;
    }
    if is_digit(byte) {
        return Lead::Digit;
    }
    match byte {
        b'%' => Lead::Mark(TokenKind::Val),
        b'@' => Lead::Mark(TokenKind::At),
        b'#' => Lead::Mark(TokenKind::Hash),
        b'^' => Lead::Mark(TokenKind::Block),
        b'!' => Lead::Mark(TokenKind::Bang),
        b'?' => Lead::Question,
        b'"' => Lead::Quote,
        _ if is_sign_byte(byte) => Lead::Punctuation,
        _ => Lead::Other,
    }
}

/// The bytes of the name behind the mark of this kind.
pub(crate) fn class_of(kind: TokenKind) -> Class
    ensures { result ≡ class_of kind }
{
    match kind {
        TokenKind::Val => Class::ValueName,
        _ => Class::Name,
    }
}

/// How many bytes of the class stand at the front.
pub(crate) fn run_len(bytes: &[u8], class: Class) -> usize
    ensures value { result ≡ prefix_len (is_in class) bytes.now }
    ensures within { result ≤ length bytes.now }
{
    for (i, byte) in bytes.iter().enumerate() {
        if !is_in(class, *byte) {
            return i;
        }
    }
    bytes.len()
}
