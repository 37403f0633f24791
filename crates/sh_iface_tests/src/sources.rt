ghost use Rattle.std.specs.Prelude.{IfSome};
ghost use Rattle.sh_eval.specs.Sources.{IsOfSource};
ghost use Rattle.sh_iface.specs.Verified.{IsOfVerified};

use sh_ir::{Func, Op};
use sh_verify::Verified;

/// The first function, where it is in source form.
pub fn first_func(m: &Verified) -> Option<&Func>
    ensures { IfSome result (λ f. IsOfSource f.now) }
{
    match m.module().funcs.as_slice().get(0) {
        Some(f) => {
            if f.carry.is_some() {
                return None;
            }
            Some(f)
        }
        None => None,
    }
}

/// Its first operation.
pub fn first_op(f: &Func) -> Option<&Op>
    requires { IsOfSource f.now }
    ensures { IfSome result (λ op. IsOfVerified op.now) }
{
    match f.ops.as_slice().get(0) {
        Some(op) => Some(op),
        None => None,
    }
}
