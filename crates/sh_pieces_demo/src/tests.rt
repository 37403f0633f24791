use crate::{Function, Subtract, renamed, run};
use sh_turns_demo::plain::Numbers;
use std::alloc::{AllocError, Global};
use std::process::Abort;
use std::test::Fail;

/// `7 = 3 - 5`, `3 = 3 - 7`, `9 = 3 - 7`: the name 3 is defined twice.
fn example(alloc: Global) -> Result<Function, AllocError> {
    let mut instructions = Vec::new(alloc);
    instructions.push(Subtract {
        left: 3,
        right: 5,
        defines: 7,
    })?;
    instructions.push(Subtract {
        left: 3,
        right: 7,
        defines: 3,
    })?;
    instructions.push(Subtract {
        left: 3,
        right: 7,
        defines: 9,
    })?;
    Ok(Function {
        parameters: Vec::from_slice(alloc, &[3, 5])?,
        instructions,
        results: Vec::from_slice(alloc, &[9, 3])?,
    })
}

/// The results of a function, which has as many parameters.
fn results(
    rt: &impl Abort,
    alloc: Global,
    function: &Function,
    arguments: &[usize],
) -> Result<Option<Numbers>, Fail> {
    assert!(rt; arguments.len() == function.parameters.len());
    Ok(run(alloc, function, arguments)?)
}

/// Whether these are the results, if there are any.
fn are(results: Option<Numbers>, wanted: &[usize]) -> bool {
    match results {
        None => false,
        Some(results) => results.as_slice() == wanted,
    }
}

#[test]
fn the_newest_value_of_a_name(rt: HostRuntime) -> Result<(), Fail> {
    let alloc = rt.alloc();
    let function = example(alloc)?;
    assert!(rt; are(results(&rt, alloc, &function, &[10, 8])?, &[6, 8]));
    assert!(rt; results(&rt, alloc, &function, &[10, 2])?.is_none());
    Ok(())
}

#[test]
fn other_names(rt: HostRuntime) -> Result<(), Fail> {
    let alloc = rt.alloc();
    let function = example(alloc)?;
    assert!(rt; renamed(alloc, &function, usize::MAX)?.is_none());
    let Some(other) = renamed(alloc, &function, 100)? else {
        assert!(rt; false);
        return Ok(());
    };
    assert_eq!(rt; other.parameters.as_slice(), [103, 105].as_slice());
    assert!(rt; are(results(&rt, alloc, &other, &[10, 8])?, &[6, 8]));
    Ok(())
}
