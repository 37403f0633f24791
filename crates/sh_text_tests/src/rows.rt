use crate::{Unsound, judge, judge_shardings};
use sh_base::{Place, Refusal, Same};
use sh_ir::copy_module;
use sh_verify::Verified;
use std::alloc::Global;
use std::process::Abort;
use std::test::Fail;

const LONGEST: usize = 16_777_216;

/// The text around an operation: a function without results is open before it, and ends behind it.
pub const END: &str = "return } }";

/// `sound` where a copy of the module is equal to it.
fn copied(alloc: Global, found: &Verified) -> Result<String, Fail> {
    let copy = copy_module(alloc, found.module())?;
    let word = if copy.same(found.module()) {
        "sound"
    } else {
        "another copy"
    };
    Ok(String::from_str(alloc, word)?)
}

/// `sound`, or the code and the place of the first fault.
fn said(alloc: Global, found: Result<Verified, Unsound>) -> Result<String, Fail> {
    match found {
        Ok(module) => copied(alloc, &module),
        Err(Unsound::Mem) => Ok(String::from_str(alloc, "memory")?),
        Err(Unsound::At(Refusal { place, rule })) => {
            let Place { line, column } = place;
            let rule = rule.code();
            Ok(format!(in alloc; "{rule} {line}:{column}")?)
        }
    }
}

/// What is said of a text by the reader, the limits and the rules.
pub fn answer(rt: &impl Abort, alloc: Global, text: &str) -> Result<String, Fail> {
    assert!(rt; text.len() <= LONGEST);
    said(alloc, judge(alloc, text.as_bytes()))
}

fn assert_row(
    rt: &impl Abort,
    alloc: Global,
    head: &str,
    row: &str,
    tail: &str,
) -> Result<(), Fail> {
    let (part, want) = row.split_once(" | ").ok_or("no bar")?;
    let text = format!(in alloc; "{head}\n{part}\n{tail}\n")?;
    let found = answer(rt, alloc, text.as_str())?;
    assert_eq!(rt; found.as_str(), want, "{row}");
    Ok(())
}

fn assert_admission(
    rt: &impl Abort,
    alloc: Global,
    need_grid: bool,
    head: &str,
    row: &str,
    tail: &str,
) -> Result<(), Fail> {
    let (part, want) = row.split_once(" | ").ok_or("no bar")?;
    let text = format!(in alloc; "{head}\n{part}\n{tail}\n")?;
    assert!(rt; text.len() <= LONGEST);
    let found = said(alloc, judge_shardings(alloc, text.as_bytes(), need_grid))?;
    assert_eq!(rt; found.as_str(), want, "{row}");
    Ok(())
}

/// The same as [`assert_rows`], where the text's shardings are asked too.
pub fn assert_admissions(
    rt: &impl Abort,
    alloc: Global,
    need_grid: bool,
    head: &str,
    rows: &str,
    tail: &str,
) -> Result<(), Fail> {
    for row in rows.lines() {
        assert_admission(rt, alloc, need_grid, head, row, tail)?;
    }
    Ok(())
}

/// Each row is a part of a text, on lines of its own between the head and the tail; then what is said
/// of the text.
pub fn assert_rows(
    rt: &impl Abort,
    alloc: Global,
    head: &str,
    rows: &str,
    tail: &str,
) -> Result<(), Fail> {
    for row in rows.lines() {
        assert_row(rt, alloc, head, row, tail)?;
    }
    Ok(())
}

fn assert_named(
    rt: &impl Abort,
    alloc: Global,
    name: &str,
    head: &str,
    rows: &str,
) -> Result<(), Fail> {
    for row in rows.lines() {
        let (before, behind) = row.split_once("NAME").ok_or("no name")?;
        let named = format!(in alloc; "{before}{name}{behind}")?;
        assert_row(rt, alloc, head, named.as_str(), END)?;
    }
    Ok(())
}

/// The same for each of the names, which stands for `NAME` in the rows; the tail is [`END`].
pub fn assert_each(
    rt: &impl Abort,
    alloc: Global,
    names: &str,
    head: &str,
    rows: &str,
) -> Result<(), Fail> {
    for name in names.split_whitespace() {
        assert_named(rt, alloc, name, head, rows)?;
    }
    Ok(())
}
