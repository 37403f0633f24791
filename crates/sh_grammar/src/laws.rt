ghost use Rattle.std.specs.Prelude.{◌≡◌, ◌++◌, ◌↔◌, ℕ, List, take};
ghost use Rattle.sh_grammar.specs.Grammar.{Trees, events, up_to};
ghost use Rattle.sh_grammar.specs.Language.{IsFile, IsFileFront};
ghost use Rattle.sh_grammar.specs.Lexemes.{Lexeme};

/// The law that a list of tokens has at most one tree.
pub fn one_tree()
    ensures { (ts : List Lexeme) (f h : Trees) → IsFile ts f → IsFile ts h → f ≡ h }
{}

/// The law that two files with the same first tokens take the same steps over them.
pub fn one_way()
    ensures { (k : ℕ) (ts us : List Lexeme) (f h : Trees) → IsFile ts f → IsFile us h →
        take k ts ≡ take k us → up_to k (events f) ≡ up_to k (events h) }
{}

/// The law that the fronts of a file are the tokens from which some tokens go on to a file.
pub fn fronts_go_on()
    ensures { (ts : List Lexeme) → IsFileFront ts ↔
        ((more : List Lexeme) × (f : Trees) × IsFile (ts ++ more) f) }
{}
