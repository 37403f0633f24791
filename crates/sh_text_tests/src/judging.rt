ghost use Rattle.std.specs.Prelude.{◌≡◌, ◌≤◌, [], IfOk, length};
ghost use Rattle.sh_base.specs.Limits.{max_bytes};
ghost use Rattle.sh_ir.specs.Faults.{limit_faults};
ghost use Rattle.sh_parse.specs.Reads.{Reads};

use sh_admission::{ModuleRefusal, admit_module};
use sh_base::{Mem, Refusal, Rule};
use sh_lex::{LexRefusal, lex};
use sh_parse::{ParseRefusal, parse};
use sh_verify::{Verified, VerifyRefusal, limits, verify};
use std::alloc::Global;
use thiserror::Error;

/// Why a text stands for no module within the limits and rules.
#[derive(Clone, Copy, Debug, Error)]
pub enum Unsound {
    /// The first fault: of its tokens, else of the grammar, else of the limits, else of the rules,
    /// else of its shardings.
    #[error("a limit or rule is broken")]
    At(Refusal),
    /// Want of memory.
    #[error("out of memory")]
    Mem,
}

impl From<LexRefusal> for Unsound {
    fn from(refusal: LexRefusal) -> Unsound {
        let (place, rule) = match refusal {
            LexRefusal::BadByte { place } => (place, Rule::B1),
            LexRefusal::OpenString { place } => (place, Rule::B2),
            LexRefusal::NumberTooWide { place } => (place, Rule::B3),
            LexRefusal::Mem => return Unsound::Mem,
        };
        Unsound::At(Refusal { place, rule })
    }
}

impl From<ParseRefusal> for Unsound {
    fn from(refusal: ParseRefusal) -> Unsound {
        match refusal {
            ParseRefusal::At(fault) => Unsound::At(fault),
            ParseRefusal::Mem => Unsound::Mem,
        }
    }
}

impl From<Refusal> for Unsound {
    fn from(fault: Refusal) -> Unsound {
        Unsound::At(fault)
    }
}

impl From<VerifyRefusal> for Unsound {
    fn from(refusal: VerifyRefusal) -> Unsound {
        match refusal {
            VerifyRefusal::Broken(fault) => Unsound::At(fault),
            VerifyRefusal::Mem => Unsound::Mem,
        }
    }
}

impl From<ModuleRefusal> for Unsound {
    fn from(refusal: ModuleRefusal) -> Unsound {
        match refusal {
            ModuleRefusal::Broken(fault) => Unsound::At(fault),
            ModuleRefusal::Mem => Unsound::Mem,
        }
    }
}

/// The module that a text stands for, which is refused with the first fault of its tokens, of the
/// grammar, of the limits or of the rules, in this order.
pub fn judge(alloc: Global, text: &[u8]) -> Result<Verified, Unsound>
    requires { length text.now ≤ max_bytes }
    ensures reads { IfOk result (λ m. Reads text.now m) }
    ensures within { IfOk result (λ m. limit_faults m ≡ []) }
{
    let tokens = lex(alloc, text)?;
    let module = parse(alloc, text, &tokens)?;
    limits(&module)?;
    Ok(verify(alloc, module)?)
}

/// The same, where the module is also refused if its shardings aren't admitted.
pub fn judge_shardings(alloc: Global, text: &[u8], need_grid: bool) -> Result<Verified, Unsound>
    requires { length text.now ≤ max_bytes }
    ensures { IfOk result (λ m. Reads text.now m) }
{
    let found = judge(alloc, text)?;
    admit_module(alloc, found.module(), need_grid)?;
    Ok(found)
}
