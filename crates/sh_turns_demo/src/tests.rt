use crate::machine::{State, can_move, finished, results, start, turn};
use crate::plain::{Instruction, Numbers, Plain};
use sh_turns::Turn;
use std::alloc::{AllocError, Global};
use std::process::Abort;
use std::test::Fail;

/// The numbers of each row.
fn rows(alloc: Global, rows: &[&[usize]]) -> Result<Vec<Numbers>, AllocError> {
    let mut all = Vec::new(alloc);
    for row in rows {
        all.push(Numbers::from_vec(row.to_vec(alloc)?))?;
    }
    Ok(all)
}

/// Two devices with an all_reduce between two local instructions.
fn two(alloc: Global, arguments: &[&[usize]]) -> Result<Plain, AllocError> {
    let groups = rows(alloc, &[&[0, 1], &[0, 1]])?;
    let mut instructions = Vec::new(alloc);
    instructions.push(Instruction::Subtract(0, 1))?;
    instructions.push(Instruction::AllReduce(2, groups))?;
    instructions.push(Instruction::Subtract(3, 2))?;
    Ok(Plain {
        arguments: rows(alloc, arguments)?,
        instructions,
        results: Vec::from_slice(alloc, &[4])?,
    })
}

/// A grid of 2 × 2 devices: an all_reduce along each row, then one along each column.
fn grid(alloc: Global) -> Result<Plain, AllocError> {
    let along_rows = rows(alloc, &[&[0, 1], &[0, 1], &[2, 3], &[2, 3]])?;
    let along_columns = rows(alloc, &[&[0, 2], &[1, 3], &[0, 2], &[1, 3]])?;
    let mut instructions = Vec::new(alloc);
    instructions.push(Instruction::AllReduce(0, along_rows))?;
    instructions.push(Instruction::AllReduce(1, along_columns))?;
    Ok(Plain {
        arguments: rows(alloc, &[&[1], &[2], &[4], &[8]])?,
        instructions,
        results: Vec::from_slice(alloc, &[2])?,
    })
}

/// The world after these turns, each of which can be made and goes on.
fn run(
    rt: &impl Abort,
    alloc: Global,
    program: &Plain,
    schedule: &[usize],
) -> Result<Vec<State>, Fail> {
    let mut world = start(alloc, program)?;
    for device in schedule {
        assert!(rt; !finished(program, &world));
        assert!(rt; can_move(program, &world, *device));
        let made = turn(alloc, program, &mut world, *device)?;
        assert!(rt; matches!(made, Turn::Local | Turn::Posted | Turn::Took));
    }
    Ok(world)
}

/// The values of a device.
fn values<'a>(rt: &impl Abort, world: &'a [State], device: usize) -> &'a [usize] {
    assert!(rt; device < world.len());
    world[device].values()
}

#[test]
fn two_devices_end_alike_in_every_order(rt: HostRuntime) -> Result<(), Fail> {
    let alloc = rt.alloc();
    let program = two(alloc, &[&[9, 4], &[8, 1]])?;
    let round = [0, 1, 0, 1, 0, 1, 0, 1];
    let reverse = [1, 0, 1, 0, 1, 0, 1, 0];
    let far_ahead = [1, 1, 0, 0, 0, 0, 1, 1];
    for schedule in [round, reverse, far_ahead] {
        let world = run(&rt, alloc, &program, &schedule)?;
        assert!(rt; finished(&program, &world));
        assert_eq!(rt; values(&rt, &world, 0), [9, 4, 5, 12, 7].as_slice());
        assert_eq!(rt; values(&rt, &world, 1), [8, 1, 7, 12, 5].as_slice());
        let returned = results(alloc, &program, values(&rt, &world, 0))?;
        assert_eq!(rt; returned.as_slice(), [7].as_slice());
    }
    Ok(())
}

#[test]
fn a_fast_device_posts_its_next_collective_early(rt: HostRuntime) -> Result<(), Fail> {
    let alloc = rt.alloc();
    let program = grid(alloc)?;
    let schedule = [0, 1, 0, 0, 2, 3, 2, 2, 0, 2, 1, 1, 3, 3, 1, 3];
    let world = run(&rt, alloc, &program, &schedule)?;
    assert!(rt; finished(&program, &world));
    assert_eq!(rt; values(&rt, &world, 1), [2, 3, 15].as_slice());
    assert_eq!(rt; values(&rt, &world, 3), [8, 12, 15].as_slice());
    Ok(())
}

#[test]
fn a_mismatch_and_a_stuck_turn_change_nothing(rt: HostRuntime) -> Result<(), Fail> {
    let alloc = rt.alloc();
    let too_much = two(alloc, &[&[usize::MAX, 0], &[1, 0]])?;
    let mut world = run(&rt, alloc, &too_much, &[0, 0, 1, 1])?;
    assert!(rt; can_move(&too_much, &world, 1));
    assert_eq!(rt; turn(alloc, &too_much, &mut world, 1)?, Turn::Mismatch);
    assert_eq!(rt; values(&rt, &world, 1), [1, 0, 1].as_slice());

    let below = two(alloc, &[&[3, 1], &[1, 3]])?;
    let mut world = run(&rt, alloc, &below, &[0, 0])?;
    assert!(rt; !can_move(&below, &world, 0));
    assert!(rt; can_move(&below, &world, 1));
    assert_eq!(rt; turn(alloc, &below, &mut world, 1)?, Turn::Stuck);
    assert!(rt; can_move(&below, &world, 1));
    Ok(())
}
