ghost use Rattle.std.specs.Prelude.{◌≡◌, ◌≤◌, ◌<◌, ℕ, List, All, length};
ghost use Rattle.sh_lex.specs.declared.tokens.LexRefusal.{LexRefusal};
ghost use Rattle.sh_lex.specs.declared.tokens.Token.{Token};
ghost use Rattle.sh_lex.specs.Tokens.{HasTokens, IsRefused, AreSpans};

/// A text has at most one list of tokens.
pub fn one_token_list()
    ensures { (text : List ℕ) (tokens others : List Token) → HasTokens text tokens → HasTokens text others → tokens ≡ others }
{}

/// A text without tokens has one first fault, and a text with tokens has none.
pub fn one_refusal()
    ensures one { (text : List ℕ) (why other : LexRefusal) → IsRefused text why → IsRefused text other → why ≡ other }
    ensures none { (text : List ℕ) (tokens : List Token) (why : LexRefusal) → HasTokens text tokens → IsRefused text why → ⊥ }
{}

/// The text of a token is its slice of the text, the spans stand in order, and `End` is last and only there.
pub fn spans()
    ensures order { (text : List ℕ) (tokens : List Token) → HasTokens text tokens → AreSpans text 0 tokens }
    ensures within { (text : List ℕ) (tokens : List Token) → HasTokens text tokens →
        All (λ token. (token.start ≤ token.end) × (token.end ≤ length text)) tokens }
{}
