ghost use Rattle.std.specs.Prelude.{◌≡◌, ◌≤◌, IfOk, Option, map, option_map, length};
ghost use Rattle.sh_eval.specs.Functions.{CanEvaluateFrom, outcome_in};
ghost use Rattle.sh_eval.specs.Sources.{IsOfSource};
ghost use Rattle.sh_eval.specs.Stores.{values_in};
ghost use Rattle.sh_eval.specs.Work.{IsOutcome, outcome, outcome_from};
ghost use Rattle.sh_pieces.specs.Runs.{argument_under};
ghost use Rattle.sh_sem.specs.Returned.{returned as names_returned};
ghost use Rattle.sh_sem.specs.Types.{AreOfTypes};
ghost use Rattle.sh_turns.specs.Program.{all_there};

use crate::steps::{Step, advance};
use crate::store::Store;
use crate::uses::{forget_ended, uses_of};
use sh_base::{Items, Mem};
use sh_ir::{Arg, Func, Op, OpClass};
use sh_tensor::{Tensor, copy};
use std::alloc::Global;
use std::rc::Rc;

/// How the evaluation of a function ends.
#[derive(Drop)]
pub enum Evaluated {
    /// With the results. Results that are one value share one tensor.
    Results(Items<Rc<Tensor>>),
    /// At the first operation that is stuck.
    Stuck { op: u64 },
    /// At the first operation that passes the limit on work.
    TooMuch { op: u64 },
}

/// The names that the return gives back.
pub fn returned(ops: &[Op]) -> &[u32]
    ensures { result.now ≡ names_returned ops.now }
{
    for op in ops {
        if op.kind.class() == OpClass::Return {
            return op.operands.as_slice();
        }
    }
    &[]
}

/// The arguments under the names of the parameters.
fn at_start(alloc: Global, params: &[Arg], args: &[Tensor]) -> Result<Store, Mem>
    requires { length params.now ≡ length args.now }
    ensures { IfOk result (λ store. values_in store
        ≡ argument_under (map (λ a. a.id) params.now) args.now) }
{
    let mut store = Store::new(alloc);
    for at in 0..params.len() {
        let t = copy(alloc, &args[at])?;
        store.define(Some(params[at].id), Rc::new(alloc, t)?)?;
    }
    Ok(store)
}

/// The tensors of names, if each has one.
fn results(alloc: Global, store: &Store, names: &[u32]) -> Result<Option<Items<Rc<Tensor>>>, Mem>
    ensures { IfOk result (λ out. option_map (map (λ t. t.value)) out
        ≡ all_there (map (values_in store.now) names.now)) }
{
    let mut ts: Vec<Rc<Tensor>> = Vec::with_capacity(alloc, names.len())?;
    for name in names {
        match store.shared(*name)? {
            Some(t) => ts.push(t)?,
            None => return Ok(None),
        }
    }
    Ok(Some(Items::from_vec(ts)))
}

/// Does operations one after the other. A value is let go with the last operation that names it,
/// unless it is returned.
fn run(alloc: Global, ops: &[Op], names: &[u32], start: Store) -> Result<Evaluated, Mem>
    requires { CanEvaluateFrom ops.now (values_in start) }
    ensures { IfOk result (λ e. outcome_in e ≡ outcome_from 0 0 ops.now names.now (values_in start)) }
{
    let uses = uses_of(alloc, ops, names)?;
    let mut store = start;
    let mut work: u64 = 0;
    for (at, op) in ops.iter().enumerate() {
        match advance(alloc, op, &mut store, work)? {
            Step::Done(sum) => {
                work = sum;
                forget_ended(&mut store, op, &uses, at as u64);
            }
            Step::Stuck => return Ok(Evaluated::Stuck { op: at as u64 }),
            Step::TooMuch => return Ok(Evaluated::TooMuch { op: at as u64 }),
        }
    }
    match results(alloc, &store, names)? {
        Some(ts) => Ok(Evaluated::Results(ts)),
        None => Ok(Evaluated::Stuck {
            op: ops.len() as u64,
        }),
    }
}

/// Evaluates a function in source form: its results, or the first operation that is stuck or that
/// passes the limit on work. Each argument is copied once; notes copy nothing.
pub fn eval_func(alloc: Global, f: &Func, args: &Vec<Tensor>) -> Result<Evaluated, Mem>
    requires verified { IsOfSource f.now }
    requires typed { AreOfTypes (map (λ a. a.value_type) f.now.args) args.now.items }
    ensures value { IfOk result (λ e. outcome_in e ≡ outcome f.now args.now.items) }
    ensures meaning { IfOk result (λ e. IsOutcome f.now args.now.items (outcome_in e)) }
{
    let ops = f.ops.as_slice();
    let store = at_start(alloc, f.args.as_slice(), args.as_slice())?;
    run(alloc, ops, returned(ops), store)
}
