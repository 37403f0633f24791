ghost use Rattle.std.specs.Prelude.{List};
ghost use Rattle.sh_grammar.specs.Grammar.{Trees, events};
ghost use Rattle.sh_grammar.specs.Language.{IsFile};
ghost use Rattle.sh_grammar.specs.Lexemes.{Lexeme};
ghost use Rattle.sh_build.specs.Building.{AreSized};

/// The law that the steps of a file open each form with as many parts as its row has.
pub fn rows_have_sizes()
    ensures { (ts : List Lexeme) (f : Trees) → IsFile ts f → AreSized (events f) }
{}
