//! The laws of printing: what is printed is read back.
//!
//! `specs/Printable.antt` says which modules these are: formed ones whose literals fit their types
//! and whose functions use names that they define, within bounds that no memory reaches.
//!
//! `specs/TokensOf.antt` says which lexemes are the tokens of printed pieces, and
//! `specs/ReadsBack.antt` when such tokens are read as a part of a module. Nothing is asked of
//! where they stand, and each name may have any number that goes by its text.
#![tactic(auto)]

ghost use Rattle.std.specs.Prelude.{◌≡◌, ℕ, [], ◌∷◌, List, map, true, IsTrue, Some};
ghost use Rattle.sh_alike.specs.Alike.{AreAlike};
ghost use Rattle.sh_base.specs.declared.places.Place.{Place};
ghost use Rattle.sh_base.specs.declared.rules.Rule.TheVariants.{V1, V2, V5};
ghost use Rattle.sh_build.specs.Meaning.{side};
ghost use Rattle.sh_grammar.specs.Lexemes.{Lexeme};
ghost use Rattle.sh_grammar.specs.declared.forms.Form.TheVariants.{RightSide, ValueType as TypeForm};
ghost use Rattle.sh_ir.specs.Faults.{KeepsModule};
ghost use Rattle.sh_ir.specs.Formed.{IsFormed, is_spelled_type};
ghost use Rattle.sh_ir.specs.Parts.{op_of};
ghost use Rattle.sh_ir.specs.declared.modules.Module.{Module};
ghost use Rattle.sh_ir.specs.declared.operations.OpKind.{OpKind};
ghost use Rattle.sh_ir.specs.declared.types.ValueType.{ValueType};
ghost use Rattle.sh_parse.specs.Reads.{Reads};
ghost use Rattle.sh_print.specs.Examples.{call_of_sum, sum_module};
ghost use Rattle.sh_print.specs.Spellings.{type_pieces};
ghost use Rattle.sh_print.specs.Tokens.{kind_pieces, op_pieces, text_of};
ghost use Rattle.sh_print.specs.Values.{Scope};
ghost use Rattle.sh_print_laws.specs.Printable.{HasFewNames, IsPrintable, IsReadAlike};
ghost use Rattle.sh_print_laws.specs.ReadsBack.{IsOperationRead, IsWritten, ReadBack, by_names};
ghost use Rattle.sh_print_laws.specs.ReadsBack.{is_simple, type_part};
ghost use Rattle.sh_print_laws.specs.TokensOf.{AreTokensOf};

/// The text of a printable module is read, and as a module alike: the same but for places and the
/// numbering of values, function by function, no two names of which become one.
pub fn modules_read_back()
    ensures { (m : Module) → IsPrintable m → IsReadAlike m (text_of m) }
{}

/// A formed module that keeps the rules on names and literals is printable, if it has fewer than 2^64
/// names: each is defined before it is used (`V1`), no block argument twice (`V2`), and each literal
/// fits its type (`V5`).
pub fn kept_rules_printable()
    ensures { (m : Module) → IsFormed m → KeepsModule V1 m → KeepsModule V2 m → KeepsModule V5 m
        → HasFewNames m → IsPrintable m }
{}

/// A sum of two vectors on two devices, called once, is printable.
pub fn printable_example()
    ensures { IsPrintable (sum_module (call_of_sum ∷ [])) }
{}

/// Modules that are alike are printed as one text.
pub fn alike_modules_printed()
    ensures { (m n : Module) → IsFormed m → IsFormed n → AreAlike m n → text_of m ≡ text_of n }
{}

/// What is read of a printable module's text is printed as that text again.
pub fn printing_twice()
    ensures { (m n : Module) → IsPrintable m → Reads (text_of m) n → text_of n ≡ text_of m }
{}

/// A type that a text can spell is read back as it was printed.
pub fn types_read_back()
    ensures { (number : List ℕ → ℕ) (t : ValueType) → IsTrue (is_spelled_type t)
        → ReadBack (type_pieces t) number TypeForm (type_part t) }
{}

/// The right side of an operation with no region is read back as it is, with
/// the numbers of the names that its operands have in the text.
pub fn right_sides_read_back()
    ensures { (number : List ℕ → ℕ) (scope : Scope) (k : OpKind) (xs : List ℕ) (t : ValueType)
        → is_simple k ≡ true → IsWritten k xs t
        → ReadBack (kind_pieces scope k xs t) number RightSide
        (side k (map (by_names number scope) xs) t) }
{}

/// Such an operation is read back as the same operation up to its place, with its names renamed.
pub fn operations_read_back()
    ensures { (number : List ℕ → ℕ) (scope : Scope) (id : ℕ) (k : OpKind) (xs : List ℕ)
        (t : ValueType) (place : Place) → is_simple k ≡ true → IsWritten k xs t
        → (ts : List Lexeme) → AreTokensOf (op_pieces scope (op_of k xs (Some id) t place)) ts
        → IsOperationRead ts number scope (op_of k xs (Some id) t place) }
{}
