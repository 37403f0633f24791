ghost use Rattle.std.specs.Prelude.{◌≡◌, [], ◌∷◌, ◌++◌, codes};
ghost use Rattle.sh_print.specs.Examples.{call_line, call_of_sum, empty_module, sum_lines, sum_module};
ghost use Rattle.sh_print.specs.LayoutLaw.{LayoutLaw, PrintedLaw};
ghost use Rattle.sh_print.specs.Tokens.{text_of};

/// A module in device form is printed line by line, with its call and without, and so is an empty
/// one.
pub fn examples()
    ensures sum { text_of (sum_module []) ≡ sum_lines ++ codes "}\n" }
    ensures called { text_of (sum_module (call_of_sum ∷ []))
        ≡ sum_lines ++ call_line ++ codes "}\n" }
    ensures empty { text_of empty_module ≡ codes "module {\n}\n" }
{}

/// A text has exactly the tokens that it was laid out of: those of its pieces in order, and the end.
pub fn layout_keeps_tokens()
    ensures { LayoutLaw }
{}

/// The text of a formed module has exactly the tokens of the module: each piece is spelled as its
/// kind, and no `>` stands behind a `-`.
pub fn printed_tokens()
    ensures { PrintedLaw }
{}
