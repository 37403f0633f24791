use crate::{admit_example, read_example};
use sh_base::{AxisLists, Numbers};
use sh_ir::RawSharding;
use sh_sharding::{AdmitRefusal, admit, raw, same};
use std::alloc::Global;
use std::process::Abort;
use std::test::Fail;

/// Each line an example, and the answer: the rule that it breaks, or its normal form's spelling.
const ADMISSIONS: &str = "\
2 2 | 4 | 1 0 | | = 1 0 | |
2 2 | 4 | 1 2 | | = A1
2 2 | 4 | -1 | | = A1
2 2 | 4 | 0 1 0 | | = A2
2 2 | 4 4 | 0 / 1 0 | | = A2
2 2 | 4 4 | 0 / 1 | | = 0 / 1 | |
2 2 | 4 | 0 / 1 | | = A3
2 2 | 4 | 0 / - | | = A3
2 2 | 4 4 | 0 / - | | = 0 | |
2 2 | 4 4 | - / 0 | | = - / 0 | |
2 2 | 4 4 | | | = - | |
2 2 | | | | = | |
2 | 5 | 0 | | = 0 | |
4 | 5 | 0 | | = 0 | |
2 | 6 | 0 | | = 0 | |
3 | 0 | 0 | | = 0 | |
2 | 5 | 0 | | 0 6 5 = A5
2 | 5 | 0 | | 0 2 5 = 0 | | 0 2 5
2 | 5 | 0 | | 0 3 5 = 0 | |
4 | 5 | 0 | | 0 2 4 5 5 = 0 | |
4 | 5 | 0 | | 0 1 2 4 5 = 0 | | 0 1 2 4 5
2 | 5 | 0 | | 0 5 5 = 0 | | 0 5 5
2 | 5 | 0 | | 1 2 5 = A5
2 | 5 | 0 | | 0 2 6 = A5
2 | 5 | 0 | | 0 5 = A5
2 | 5 | 0 | | 0 2 2 5 = A5
2 | 5 | - | | 0 = A5
4 | 14 | 0 | | 0 2 5 9 14 = 0 | | 0 2 5 9 14
4 | 14 | 0 | | 0 5 2 9 14 = A5
2 | 4 | 0 | | 0 2 4 = 0 | |
2 2 | 4 5 | 0 / 1 | | 0 2 4 0 2 5 = 0 / 1 | | 0 2 4 0 2 5
2 | 5 | 0 | 1 1 | 0 2 5 = A6
2 | 5 | 0 | 0 0 | 0 2 5 = A6
2 | 6 | 0 | 1 1 | = 0 | 1 1 |
2 | 6 | 0 | 0 0 | = 0 | |
2 | 6 | 0 | 1 0 | = 0 | 1 0 |
2 | 6 | 0 | 1 | = A7
2 | 6 | 0 | 1 1 1 1 | = A7
2 | 6 | 0 | 1 -1 | = A7
2 | 6 | - | 0 0 | = A7
2 2 | 6 6 | - / 0 | 1 1 | = - / 0 | 1 1 |
2 2 | 6 6 | 0 / 1 | 1 1 | = A7
2 2 | 6 6 | 0 / 1 | 1 0 0 2 | = 0 / 1 | 1 0 0 2 |
4 | 8 | 0 | 2 2 | = 0 | 2 2 |
4 | 8 | 0 | 3 2 | = A8
2 | 5 | 0 | 2 1 | = 0 | 2 1 |
2 | 5 | 0 | 3 1 | = A8
4 | 5 | 0 | 0 1 | = A8
4 | 8 | 0 | 2 3 | = A8
2 | 0 | 0 | 0 0 | = 0 | |
2 | 0 | 0 | 0 1 | = A8
2 | 1048576 | 0 | 262144 262144 | = 0 | 262144 262144 |
2 | 1048576 | 0 | 262144 262145 | = A8
1 2 | 1048576 0 | 0 / 1 | | = 0 / 1 | |
1 2 | 1048576 0 | 0 | 1 0 | = A8
1 2 | 1048575 0 | 0 | 1 0 | = 0 | 1 0 |";

/// Appends numbers, with a blank before each.
fn push_numbers(line: &mut String, numbers: &Numbers) -> Result<(), Fail> {
    for number in numbers.as_slice() {
        write!(line, " {number}")?;
    }
    Ok(())
}

/// Appends lists of axes.
fn push_lists(line: &mut String, lists: &AxisLists) -> Result<(), Fail> {
    for (at, list) in lists.as_slice().iter().enumerate() {
        if at > 0 {
            line.push_str(" /")?;
        }
        if list.is_empty() {
            line.push_str(" -")?;
        }
        push_numbers(line, list)?;
    }
    Ok(())
}

/// The lists of axes, the halo sizes and the offsets, as the examples have them.
fn shown(alloc: Global, written: &RawSharding) -> Result<String, Fail> {
    let mut line = String::new(alloc);
    push_lists(&mut line, &written.split)?;
    line.push_str(" |")?;
    push_numbers(&mut line, &written.halos)?;
    line.push_str(" |")?;
    push_numbers(&mut line, &written.offsets)?;
    Ok(line)
}

/// The answer to an example.
fn answer(alloc: Global, line: &str) -> Result<String, Fail> {
    let example = read_example(alloc, line)?;
    match admit(alloc, &example.grid, &example.written, &example.shape) {
        Ok(sharding) => shown(alloc, &raw(alloc, &sharding)?),
        Err(AdmitRefusal::Broken(rule)) => Ok(String::from_str(alloc, rule.code())?),
        Err(AdmitRefusal::Mem) => Err("no memory")?,
    }
}

/// Compares the answer to the example of a row.
fn assert_answer(rt: &impl Abort, alloc: Global, row: &str) -> Result<(), Fail> {
    let (line, want) = row.split_once(" =").ok_or("no answer")?;
    let found = answer(alloc, line)?;
    assert_eq!(rt; found.as_str().trim(), want.trim(), "{row}");
    Ok(())
}

#[test]
fn admits_or_names_the_first_rule_that_is_broken(rt: HostRuntime) -> Result<(), Fail> {
    let alloc = rt.alloc();
    for row in ADMISSIONS.lines() {
        assert_answer(&rt, alloc, row)?;
    }
    Ok(())
}

/// Each line two examples, and whether they are the same.
const PAIRS: &str = "\
2 | 4 | 0 | | ; 2 | 4 | 0 | | 0 2 4 ; same
2 | 4 | 0 | | ; 2 | 8 3 | 0 | | ; same
2 | 4 | 0 | | ; 2 | 4 | 0 | 0 0 | ; same
2 | 5 | 0 | | ; 2 | 5 | 0 | | 0 3 5 ; same
2 | 5 | 0 | | ; 2 | 4 | 0 | | ; same
2 | 5 | 0 | | ; 2 | 5 | 0 | | 0 2 5 ; other
2 | 4 4 | - / - | | ; 2 | 4 | | | ; same
2 | 4 | 0 | 1 0 | ; 2 | 4 | 0 | 1 0 | ; same
2 | 4 | 0 | 1 0 | ; 2 | 4 | 0 | 0 1 | ; other
2 | 4 | 0 | 1 0 | ; 2 | 4 | 0 | | ; other
2 | 4 | 0 | | ; 4 | 4 | 0 | | ; other
2 | 4 | 0 | | ; 2 | 4 | - | | ; other
2 | 4 4 | 0 | | ; 2 | 4 4 | - / 0 | | ; other
2 2 | 4 | 0 1 | | ; 2 2 | 4 | 1 0 | | ; other
4 | 5 | 0 | | 0 2 4 4 5 ; 4 | 5 | 0 | | 0 1 2 4 5 ; other
2 | 5 | 0 | | 0 2 5 ; 2 | 4 | 0 | | ; other";

/// Whether the examples of two lines are the same.
fn are_same(alloc: Global, left: &str, right: &str) -> Result<bool, Fail> {
    let left = admit_example(alloc, left)?;
    let right = admit_example(alloc, right)?;
    Ok(same(&left.sharding, &right.sharding))
}

fn assert_same(rt: &impl Abort, alloc: Global, row: &str) -> Result<(), Fail> {
    let (left, rest) = row.split_once(';').ok_or("no second")?;
    let (right, want) = rest.split_once(';').ok_or("no answer")?;
    let found = are_same(alloc, left, right)?;
    assert_eq!(rt; found, want.trim() == "same", "{row}");
    Ok(())
}

#[test]
fn compares_grids_axes_offsets_and_halos(rt: HostRuntime) -> Result<(), Fail> {
    let alloc = rt.alloc();
    for row in PAIRS.lines() {
        assert_same(&rt, alloc, row)?;
    }
    Ok(())
}
