//! Modules that are the same but for the places of their parts and the numbering of their values.
//!
//! `specs/Alike.antt` says when two modules are alike, and [`alike_laws`] that this is an
//! equivalence.
#![tactic(auto)]

ghost use Rattle.sh_alike.specs.Alike.{AreAlike};
ghost use Rattle.sh_ir.specs.declared.modules.Module.{Module};

/// Modules are alike themselves, the other way round, and along a chain.
pub fn alike_laws()
    ensures reflexive { (m : Module) → AreAlike m m }
    ensures symmetric { (m n : Module) → AreAlike m n → AreAlike n m }
    ensures transitive { (l m n : Module) → AreAlike l m → AreAlike m n → AreAlike l n }
{}
