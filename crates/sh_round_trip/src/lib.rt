//! A verified module is printed as a text that is read as that module, up to places and the numbering
//! of values.
#![tactic(auto)]

ghost use Rattle.std.specs.Prelude.{◌≡◌};
ghost use Rattle.sh_ir.specs.declared.modules.Module.{Module};
ghost use Rattle.sh_parse.specs.Reads.{Reads};
ghost use Rattle.sh_print.specs.Tokens.{text_of};
ghost use Rattle.sh_print_laws.specs.Printable.{HasFewNames, IsReadAlike};
ghost use Rattle.sh_verify.specs.Verified.{IsVerified};

/// The text of a verified module is read, as a module that is the same but for places and the
/// numbering of values (`read`), and what is read of it is printed as that text again (`again`).
///
/// Names are printed as the decimals of their positions, numbers of 64 bits: a function, a region and
/// a map have fewer than 2^64 names, as each does that memory holds.
pub fn verified_read_back()
    ensures read { (m : Module) → IsVerified m → HasFewNames m → IsReadAlike m (text_of m) }
    ensures again { (m n : Module) → IsVerified m → HasFewNames m → Reads (text_of m) n
        → text_of n ≡ text_of m }
{}
