//! Functions over plain numbers whose instructions name their values, run by the definitions of
//! `sh_pieces`.
#![tactic(auto)]

ghost use Rattle.std.specs.Prelude.{◌≡◌, ℕ, ◌+◌, ◌^◌, ◌<◌, ◌≤◌, List, length, map, Option, Some, None, All, IfOk, IfSome, MatchOption};
ghost use Rattle.sh_pieces.specs.Instructions.{last_place, gives};
ghost use Rattle.sh_pieces.specs.Runs.{argument_under};
ghost use Rattle.sh_pieces_demo.specs.Plain.{AreSamePrograms, CanShift, CanShiftAll, CanShiftNames, function_of, IsOutcome, IsRightWith, IsShifted, plain, shifted_by, shifted_names, values_under};

#[cfg(test)]
mod tests;

use sh_turns_demo::plain::{Numbers, value_at};
use std::alloc::{AllocError, Global};

/// An instruction: the difference of two values, all by their names. It is stuck where that is below
/// 0.
#[derive(Clone, Copy, Debug)]
pub struct Subtract {
    pub left: usize,
    pub right: usize,
    /// The name of its value.
    pub defines: usize,
}

/// A function that a device runs.
#[derive(Drop)]
pub struct Function {
    /// The names of its parameters.
    pub parameters: Vec<usize>,
    pub instructions: Vec<Subtract>,
    /// The names of its results.
    pub results: Vec<usize>,
}

/// The last place of a name.
fn last_place(names: &[usize], name: usize) -> Option<usize>
    ensures { result ≡ last_place (map (λ n. Some n) names.now) name }
{
    let mut found = None;
    for (place, other) in names.iter().enumerate() {
        if *other == name {
            found = Some(place);
        }
    }
    found
}

/// The value of a name, where values stand under these names.
fn value_of(names: &[usize], values: &[usize], name: usize) -> Option<usize>
    ensures { result ≡ argument_under names.now values.now name }
{
    let place = last_place(names, name)?;
    value_at(values, place)
}

/// What an instruction gives, where values stand under these names. None where it is stuck.
fn given(instruction: &Subtract, names: &[usize], values: &[usize]) -> Option<usize>
    ensures { result ≡ gives plain instruction.now (λ c. argument_under names.now values.now) 0 }
{
    let left = value_of(names, values, instruction.left)?;
    let right = value_of(names, values, instruction.right)?;
    left.checked_sub(right)
}

/// The values of some names, if each has one.
fn values_of(
    alloc: Global,
    names: &[usize],
    values: &[usize],
    wanted: &[usize],
) -> Result<Option<Numbers>, AllocError>
    ensures { IfOk result (λ o. o ≡ values_under names.now values.now wanted.now) }
{
    let mut found = Vec::new(alloc);
    for name in wanted {
        let Some(value) = value_of(names, values, *name) else {
            return Ok(None);
        };
        found.push(value)?;
    }
    Ok(Some(Numbers::from_vec(found)))
}

/// The results of a function, run by its names on these arguments. None where an instruction is
/// stuck, or a result has no value. Where there are results, each run of the machine of turns has
/// them.
pub fn run(
    alloc: Global,
    function: &Function,
    arguments: &[usize],
) -> Result<Option<Numbers>, AllocError>
    requires { length arguments.now ≡ length function.now.parameters.items }
    ensures by_names { IfOk result (λ o. IsOutcome (function_of function.now) arguments.now o) }
    ensures by_turns { IfOk result (λ o. IfSome o (IsRightWith function.now arguments.now)) }
{
    sh_pieces::by_names::<usize, Subtract>();
    let mut names = function.parameters.as_slice().to_vec(alloc)?;
    let mut values = arguments.to_vec(alloc)?;
    for instruction in &function.instructions {
        let Some(value) = given(instruction, names.as_slice(), values.as_slice()) else {
            return Ok(None);
        };
        names.push(instruction.defines)?;
        values.push(value)?;
    }
    values_of(
        alloc,
        names.as_slice(),
        values.as_slice(),
        function.results.as_slice(),
    )
}

/// A name that is so much greater, if it can be.
fn shifted(name: usize, offset: usize) -> Option<usize>
    ensures { MatchOption result (2 ^ 64 ≤ name + offset) (λ n. n ≡ name + offset) }
{
    name.checked_add(offset)
}

/// These names, each so much greater, if all can be.
fn shifted_all(
    alloc: Global,
    names: &[usize],
    offset: usize,
) -> Result<Option<Vec<usize>>, AllocError>
    ensures some { IfOk result (λ o. IfSome o (λ ns. ns.items ≡ shifted_names offset names.now)) }
    ensures none { IfOk result (λ o. o ≡ None → CanShiftNames offset names.now → ⊥) }
{
    let mut all = Vec::new(alloc);
    for name in names {
        let Some(name) = shifted(*name, offset) else {
            return Ok(None);
        };
        all.push(name)?;
    }
    Ok(Some(all))
}

/// An instruction under names that are so much greater, if they can be.
fn shifted_instruction(instruction: &Subtract, offset: usize) -> Option<Subtract>
    ensures { MatchOption result (CanShift offset instruction.now → ⊥)
        (λ i. i ≡ shifted_by offset instruction.now) }
{
    let left = shifted(instruction.left, offset)?;
    let right = shifted(instruction.right, offset)?;
    let defines = shifted(instruction.defines, offset)?;
    Some(Subtract {
        left,
        right,
        defines,
    })
}

/// These instructions under names that are so much greater, if they can be.
fn shifted_instructions(
    alloc: Global,
    instructions: &[Subtract],
    offset: usize,
) -> Result<Option<Vec<Subtract>>, AllocError>
    ensures some { IfOk result (λ o. IfSome o
        (λ is. is.items ≡ map (shifted_by offset) instructions.now)) }
    ensures none { IfOk result (λ o. o ≡ None → All (CanShift offset) instructions.now → ⊥) }
{
    let mut all = Vec::new(alloc);
    for instruction in instructions {
        let Some(instruction) = shifted_instruction(instruction, offset) else {
            return Ok(None);
        };
        all.push(instruction)?;
    }
    Ok(Some(all))
}

/// The function under names that are so much greater, if they can be. It is the same program.
pub fn renamed(
    alloc: Global,
    function: &Function,
    offset: usize,
) -> Result<Option<Function>, AllocError>
    ensures names { IfOk result (λ o. IfSome o (λ g. IsShifted offset function.now g)) }
    ensures none { IfOk result (λ o. o ≡ None → CanShiftAll offset function.now → ⊥) }
    ensures program { IfOk result (λ o. IfSome o (λ g. AreSamePrograms function.now g)) }
{
    sh_pieces::other_names::<usize, Subtract>();
    let Some(parameters) = shifted_all(alloc, function.parameters.as_slice(), offset)? else {
        return Ok(None);
    };
    let Some(results) = shifted_all(alloc, function.results.as_slice(), offset)? else {
        return Ok(None);
    };
    let Some(instructions) = shifted_instructions(alloc, function.instructions.as_slice(), offset)?
    else {
        return Ok(None);
    };
    Ok(Some(Function {
        parameters,
        instructions,
        results,
    }))
}
