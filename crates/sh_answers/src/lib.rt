//! No words and no text are without an answer.
//!
//! [`sh_cli::one_answer`] says that words and a text have one answer at most. That they have one is
//! shown layer by layer: a text has tokens or a first fault, tokens stand for a module or one of them
//! is refused, a module keeps the rules or has a least fault, and it is admitted or it isn't.
#![tactic(auto)]

ghost use Rattle.std.specs.Prelude.{ℕ, List};
ghost use Rattle.sh_cli.specs.Answer.{IsAnswer};
ghost use Rattle.sh_cli.specs.declared.status.Status.{Status};
ghost use Rattle.sh_words.specs.declared.options.Tool.{Tool};

/// Command words and a text are never without an answer: that they have none is refuted. With
/// [`sh_cli::one_answer`] each words and text have one status and one text for the output.
pub fn some_answer()
    ensures { (tool : Tool) (words : List (List ℕ)) (text : List ℕ)
        → ¬ ((status : Status) (output : List ℕ) → ¬ (IsAnswer tool words text status output)) }
{}
