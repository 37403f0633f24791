ghost use Rattle.std.specs.Prelude.{◌≡◌, ◌≤◌, [], false, IfErr, IfOk, length};
ghost use Rattle.sh_base.specs.Limits.{max_bytes};
ghost use Rattle.sh_ir.specs.Faults.{limit_faults};
ghost use Rattle.sh_ir.specs.Formed.{IsFormed};
ghost use Rattle.sh_parse.specs.Reads.{Reads};
ghost use Rattle.sh_cli.specs.Answer.{IsPrinting, IsSound, IsTurnedDown, calls, has_call, is_call};
ghost use Rattle.sh_cli.specs.Ending.{Refuses};
ghost use Rattle.sh_cli.specs.Judging.{IsNoModule, TurnsDown};

use crate::{Passed, Status};
use sh_admission::{ModuleRefusal, admit_module};
use sh_base::{Refusal, Rule};
use sh_ir::{Func, Module, OpKind};
use sh_lex::{LexRefusal, lex};
use sh_parse::{ParseRefusal, parse};
use sh_print::print;
use sh_verify::{Verified, VerifyRefusal, limits, verify};
use std::alloc::Global;

impl From<LexRefusal> for Status {
    ghost use Rattle.std.specs.Prelude.{◌≡◌};
    ghost use Rattle.sh_cli.specs.Status.{lex_status};

    ghost from_gives = { λ e s. s ≡ lex_status e };

    fn from(refusal: LexRefusal) -> Status {
        let (place, rule) = match refusal {
            LexRefusal::BadByte { place } => (place, Rule::B1),
            LexRefusal::OpenString { place } => (place, Rule::B2),
            LexRefusal::NumberTooWide { place } => (place, Rule::B3),
            LexRefusal::Mem => return Status::Memory,
        };
        Status::Text(Refusal { place, rule })
    }
}

impl From<ParseRefusal> for Status {
    ghost use Rattle.std.specs.Prelude.{◌≡◌};
    ghost use Rattle.sh_cli.specs.Status.{parse_status};

    ghost from_gives = { λ e s. s ≡ parse_status e };

    fn from(refusal: ParseRefusal) -> Status {
        match refusal {
            ParseRefusal::At(fault) => Status::Text(fault),
            ParseRefusal::Mem => Status::Memory,
        }
    }
}

impl From<VerifyRefusal> for Status {
    ghost use Rattle.std.specs.Prelude.{◌≡◌};
    ghost use Rattle.sh_cli.specs.Status.{verify_status};

    ghost from_gives = { λ e s. s ≡ verify_status e };

    fn from(refusal: VerifyRefusal) -> Status {
        match refusal {
            VerifyRefusal::Broken(fault) => Status::Verify(fault),
            VerifyRefusal::Mem => Status::Memory,
        }
    }
}

impl From<ModuleRefusal> for Status {
    ghost use Rattle.std.specs.Prelude.{◌≡◌};
    ghost use Rattle.sh_cli.specs.Status.{admit_status};

    ghost from_gives = { λ e s. s ≡ admit_status e };

    fn from(refusal: ModuleRefusal) -> Status {
        match refusal {
            ModuleRefusal::Broken(fault) => Status::Admission(fault),
            ModuleRefusal::Mem => Status::Memory,
        }
    }
}

/// The module that a text stands for.
fn read_module(alloc: Global, text: &[u8]) -> Result<Module, Status>
    requires { length text.now ≤ max_bytes }
    ensures reads { IfOk result (λ m. Reads text.now m) }
    ensures formed { IfOk result (λ m. IsFormed m) }
    ensures refused { IfErr result (λ status. IsNoModule text.now status) }
{
    let tokens = lex(alloc, text)?;
    Ok(parse(alloc, text, tokens.as_slice())?)
}

/// Whether an operation calls a function.
#[tactic(auto, unfolding(crate::specs::Answer::is_call, sh_ir::specs::Written::written_by))]
fn is_call(kind: &OpKind) -> bool
    ensures { result ≡ is_call kind.now }
{
    matches!(kind, OpKind::Call(_))
}

fn calls(f: &Func) -> bool
    ensures { result ≡ calls f.now }
{
    f.ops.as_slice().iter().any(|op| is_call(&op.kind))
}

/// Whether a call operation stands in a module.
fn has_call(m: &Module) -> bool
    ensures { result ≡ has_call m.now }
{
    m.funcs.as_slice().iter().any(|f| calls(f))
}

/// A module that is within the limits, has no call operation and keeps the rules.
fn checked(alloc: Global, m: Module) -> Result<Verified, Status>
    requires { IsFormed m }
    ensures kept { IfOk result (λ verified. verified ≡ m) }
    ensures sound { IfOk result (λ verified. IsSound m) }
    ensures refused { IfErr result (λ status. TurnsDown m status) }
{
    if let Err(refusal) = limits(&m) {
        return Err(Status::Limit(Passed::At(refusal)));
    }
    if has_call(&m) {
        return Err(Status::Unbuilt);
    }
    Ok(verify(alloc, m)?)
}

/// The text of a module, printed again if it keeps all limits and rules.
pub(crate) fn printed(alloc: Global, text: &[u8]) -> Result<Vec<u8>, Status>
    requires { length text.now ≤ max_bytes }
    ensures ok { IfOk result (λ output. IsPrinting text.now Status.Success output.items) }
    ensures err { IfErr result (λ status. Refuses (IsPrinting text.now) status) }
{
    let m = read_module(alloc, text)?;
    let verified = checked(alloc, m)?;
    admit_module(alloc, verified.module(), false)?;
    Ok(print(alloc, verified.module())?)
}
