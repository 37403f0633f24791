//! Programs over plain numbers, run by the definitions of the machine of turns: for every world of plain data, reached by
//! a run or not.
#![tactic(auto)]

pub mod machine;
pub mod plain;
#[cfg(test)]
mod tests;

ghost use Rattle.sh_turns.specs.Law.{HoldsInEveryOrder};
ghost use Rattle.sh_turns_demo.specs.Plain.{IsVerified, program_of};
ghost use Rattle.sh_turns_demo.specs.declared.plain.Plain.{Plain};

/// The law of turns, of each verified program over plain numbers.
pub fn every_order()
    ensures { (p : Plain) → IsVerified p → HoldsInEveryOrder (program_of p) }
{
    sh_turns::every_order::<usize>();
}
