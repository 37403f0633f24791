ghost use Rattle.std.specs.Prelude.{◌≡◌, ◌≤◌, length};
ghost use Rattle.sh_grammar.specs.Lexemes.{lexeme_of};

use sh_lex::Token;

/// The bytes of a token.
pub fn bytes_of<'a>(text: &'a [u8], token: &Token) -> &'a [u8]
    requires order { token.now.start ≤ token.now.end }
    requires within { token.now.end ≤ length text.now }
    ensures { result.now ≡ (lexeme_of text.now token.now).text }
{
    &text[token.start as usize..token.end as usize]
}
