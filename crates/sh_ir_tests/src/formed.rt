ghost use Rattle.sh_ir.specs.Formed.{IsFormed};
ghost use Rattle.sh_ir_tests.specs.Network.{the_network};
ghost use Rattle.sh_ir_tests.specs.Parts.{Part, BreaksOnly, broken, nameless_callee, tensor_cast, index_result};
ghost use Rattle.sh_ir_tests.specs.Parts.Part.{names, body_results, types};

/// The law that the network's module is formed.
pub fn network_is_formed()
    ensures { IsFormed the_network }
{}

/// The law that for each part of being formed there is a module that breaks it and keeps the others.
///
/// So do a call without a callee's name, an index that is cast to a tensor, and an index as the type
/// of a function's result.
pub fn each_part_counts()
    ensures each { (p : Part) → BreaksOnly p (broken p) }
    ensures callee { BreaksOnly names nameless_callee }
    ensures cast { BreaksOnly body_results tensor_cast }
    ensures index { BreaksOnly types index_result }
{}
