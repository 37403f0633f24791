ghost use Rattle.std.specs.Prelude.{IfSome};
ghost use Rattle.sh_eval.specs.Sources.{IsOfSource};

use sh_base::Cell;
use sh_eval::{Evaluated, eval_func};
use sh_ir::Func;
use sh_tensor::Tensor;
use sh_text_tests::judge;
use sh_verify::Verified;
use std::alloc::Global;
use std::process::Abort;
use std::rc::Rc;
use std::test::Fail;

const LONGEST: usize = 16_777_216;

/// The first function of a module, if it is in source form.
fn source(m: &Verified) -> Option<&Func>
    ensures { IfSome result (λ f. IsOfSource f.now) }
{
    match m.module().funcs.as_slice().get(0) {
        Some(f) => {
            if f.carry.is_some() {
                return None;
            }
            Some(f)
        }
        None => None,
    }
}

/// The cells in order, `?` for one that is undefined, and a dot.
fn cells_text(alloc: Global, t: &Tensor) -> Result<String, Fail> {
    let mut text = String::new(alloc);
    for cell in t.cells() {
        match cell {
            Cell::Val(value) => text.push_str(format!(in alloc; "{value} ")?.as_str())?,
            Cell::Undef => text.push_str("? ")?,
        }
    }
    text.push_str(".")?;
    Ok(text)
}

/// The cells of the only result.
fn result_text(alloc: Global, ts: &[Rc<Tensor>]) -> Result<String, Fail> {
    match ts.get(0) {
        Some(t) => cells_text(alloc, t.as_ref()),
        None => Ok(String::from_str(alloc, "nothing")?),
    }
}

/// How the evaluation of a function that takes nothing ends.
fn evaluated(alloc: Global, f: &Func) -> Result<String, Fail>
    requires { IsOfSource f.now }
{
    if f.args.as_slice().len() != 0 {
        return Ok(String::from_str(alloc, "it takes arguments")?);
    }
    let none: Vec<Tensor> = Vec::new(alloc);
    match eval_func(alloc, f, &none)? {
        Evaluated::Results(ts) => result_text(alloc, ts.as_slice()),
        Evaluated::Stuck { op } => Ok(format!(in alloc; "stuck {op}")?),
        Evaluated::TooMuch { op } => Ok(format!(in alloc; "too much {op}")?),
    }
}

/// The same of the function in a text.
fn answer(rt: &impl Abort, alloc: Global, text: &str) -> Result<String, Fail> {
    assert!(rt; text.len() <= LONGEST);
    match judge(alloc, text.as_bytes()) {
        Ok(m) => match source(&m) {
            Some(f) => evaluated(alloc, f),
            None => Ok(String::from_str(alloc, "no source")?),
        },
        Err(_) => Ok(String::from_str(alloc, "refused")?),
    }
}

fn assert_row(rt: &impl Abort, alloc: Global, head: &str, row: &str) -> Result<(), Fail> {
    let (result, rest) = row.split_once(" | ").ok_or("no bar")?;
    let (ops, want) = rest.split_once(" | ").ok_or("no second bar")?;
    let text = format!(in alloc;
        "module {{ func.func @f() -> {result} {{ {head} {ops} return %r : {result} }} }}"
    )?;
    let found = answer(rt, alloc, text.as_str())?;
    assert_eq!(rt; found.as_str(), want, "{row}");
    Ok(())
}

/// Each row is a type, operations that give `%r` of this type behind those of the head, and how the
/// evaluation of the function that returns `%r` ends.
pub fn assert_rows(rt: &impl Abort, alloc: Global, head: &str, rows: &str) -> Result<(), Fail> {
    for row in rows.lines() {
        assert_row(rt, alloc, head, row)?;
    }
    Ok(())
}
