ghost use Rattle.std.specs.Prelude.{◌≡◌};

use sh_ir::Module;
use std::marker::Model;

/// A module that is formed and keeps the limits and the rules. Whoever holds one knows that it does.
#[derive(Drop)]
pub struct Verified {
    m: Module,
}

impl Model for Verified {
    ghost use Rattle.sh_ir.specs.declared.modules.Module.{Module};
    ghost use Rattle.sh_verify.specs.Verified.{IsVerified};

    ghost Value = { Module };

    ghost view = { λ v. v.m };

    ghost invariant = { λ v. IsVerified v.m };
}

impl Verified {
    ghost use Rattle.sh_verify.specs.Verified.{IsVerified};

    /// A module that is known to be formed and to keep the limits and the rules: nothing is tested,
    /// and it takes no memory.
    pub fn new(m: Module) -> Verified
        requires { IsVerified m }
        ensures { result ≡ m }
    {
        Verified { m }
    }

    /// The module.
    pub fn module(&self) -> &Module
        ensures value { result.now ≡ self.now }
        ensures kept { IsVerified result.now }
    {
        &self.m
    }
}
