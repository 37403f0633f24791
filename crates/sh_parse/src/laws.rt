ghost use Rattle.std.specs.Prelude.{◌≡◌, ℕ, List};
ghost use Rattle.sh_ir.specs.Formed.{IsFormed};
ghost use Rattle.sh_ir.specs.declared.modules.Module.{Module};
ghost use Rattle.sh_parse.specs.Reads.{Reads};

/// The law that a text stands for at most one module.
pub fn one_module()
    ensures { (text : List ℕ) (m n : Module) → Reads text m → Reads text n → m ≡ n }
{}

/// The law that a module which a text stands for is formed.
pub fn formed_module()
    ensures { (text : List ℕ) (m : Module) → Reads text m → IsFormed m }
{}
