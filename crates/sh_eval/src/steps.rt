ghost use Rattle.std.specs.Prelude.{◌≡◌, ◌≤◌, IfOk, map, option_map};
ghost use Rattle.sh_eval.specs.Evaluations.{CanEvaluate};
ghost use Rattle.sh_eval.specs.Functions.{CanStep, IsReached, IsReachedOn, IsStep};
ghost use Rattle.sh_eval.specs.Stores.{values_in};
ghost use Rattle.sh_eval.specs.VerifiedOps.{HasTensor};
ghost use Rattle.sh_eval.specs.Work.{max_work};
ghost use Rattle.sh_ir.specs.Classes.{class_of};
ghost use Rattle.sh_sem.specs.Given.{alone};
ghost use Rattle.sh_sem.specs.Meaning.{noted_in};
ghost use Rattle.sh_turns.specs.Program.{all_there};

use crate::evaluation::{OpSeat, eval_borrowed};
use crate::store::Store;
use crate::work::work_of;
use sh_base::Mem;
use sh_ir::{Op, OpClass};
use sh_tensor::Tensor;
use std::alloc::Global;
use std::rc::Rc;

/// The greatest running sum of work in one evaluation.
const MAX_WORK: u64 = 67_108_864;

/// What comes of an operation.
#[derive(Drop)]
pub(crate) enum Step {
    /// It is done, and this is the work with its own.
    Done(u64),
    Stuck,
    TooMuch,
}

/// What comes of an operation that gives a tensor.
#[derive(Drop)]
pub(crate) enum Reached {
    /// Its value, and the work with its own.
    Value(Tensor, u64),
    Stuck,
    TooMuch,
}

/// The tensors of names, if each has one.
fn operands<'s>(
    alloc: Global,
    store: &'s Store,
    names: &[u32],
) -> Result<Option<Vec<&'s Tensor>>, Mem>
    ensures { IfOk result (λ out. option_map (λ ts. map (λ t. t.now) ts.items) out
        ≡ all_there (map (values_in store.now) names.now)) }
{
    let mut ts: Vec<&'s Tensor> = Vec::with_capacity(alloc, names.len())?;
    for name in names {
        match store.get(*name) {
            Some(t) => ts.push(t)?,
            None => return Ok(None),
        }
    }
    Ok(Some(ts))
}

/// What comes of an operation on its operands, after so much work.
fn reach_on(alloc: Global, op: &Op, ts: &[&Tensor], so_far: u64) -> Result<Reached, Mem>
    requires small { so_far ≤ max_work }
    requires can { CanEvaluate op.now alone (map (λ t. t.now) ts.now) }
    requires computes { HasTensor (class_of op.now.kind) }
    ensures { IfOk result (λ r. IsReachedOn op.now (map (λ t. t.now) ts.now) so_far r) }
{
    let work = match work_of(alloc, op, ts)? {
        Some(work) => work,
        None => return Ok(Reached::Stuck),
    };
    if work > u128::from(MAX_WORK - so_far) {
        return Ok(Reached::TooMuch);
    }
    match eval_borrowed(alloc, op, OpSeat { size: 1, place: 0 }, ts)? {
        Some(t) => Ok(Reached::Value(t, so_far + work as u64)),
        None => Ok(Reached::Stuck),
    }
}

/// What comes of an operation that gives a tensor, after so much.
fn reach(alloc: Global, op: &Op, store: &Store, so_far: u64) -> Result<Reached, Mem>
    requires small { so_far ≤ max_work }
    requires can { CanStep op.now (values_in store.now) }
    requires computes { HasTensor (class_of op.now.kind) }
    ensures { IfOk result (λ r. IsReached op.now (values_in store.now) so_far r) }
{
    match operands(alloc, store, op.operands.as_slice())? {
        Some(ts) => reach_on(alloc, op, ts.as_slice(), so_far),
        None => Ok(Reached::Stuck),
    }
}

/// Does an operation that gives a tensor.
fn work_step(alloc: Global, op: &Op, store: &mut Store, so_far: u64) -> Result<Step, Mem>
    requires small { so_far ≤ max_work }
    requires can { CanStep op.now (values_in store.old) }
    requires computes { HasTensor (class_of op.now.kind) }
    ensures { IfOk result (λ s. IsStep op.now (values_in store.old) so_far s (values_in store.new)) }
{
    match reach(alloc, op, store, so_far)? {
        Reached::Value(t, work) => {
            store.define(op.defines, Rc::new(alloc, t)?)?;
            Ok(Step::Done(work))
        }
        Reached::Stuck => Ok(Step::Stuck),
        Reached::TooMuch => Ok(Step::TooMuch),
    }
}

/// The tensor of a note's operand, if there is one.
fn noted(op: &Op, store: &Store) -> Result<Option<Rc<Tensor>>, Mem>
    ensures { IfOk result (λ t. option_map (λ t. t.value) t ≡ noted_in op.now (values_in store.now)) }
{
    match op.operands.get(0) {
        Some(name) => store.shared(*name),
        None => Ok(None),
    }
}

/// A note gives its operand, and has no work.
fn note_step(op: &Op, store: &mut Store, so_far: u64) -> Result<Step, Mem>
    requires small { so_far ≤ max_work }
    requires class { class_of op.now.kind ≡ OpClass.Note }
    ensures { IfOk result (λ s. IsStep op.now (values_in store.old) so_far s (values_in store.new)) }
{
    match noted(op, store)? {
        Some(t) => {
            store.define(op.defines, t)?;
            Ok(Step::Done(so_far))
        }
        None => Ok(Step::Stuck),
    }
}

/// Does one operation, after so much work.
pub(crate) fn advance(alloc: Global, op: &Op, store: &mut Store, so_far: u64) -> Result<Step, Mem>
    requires small { so_far ≤ max_work }
    requires can { CanStep op.now (values_in store.old) }
    ensures { IfOk result (λ s. IsStep op.now (values_in store.old) so_far s (values_in store.new)) }
{
    match op.kind.class() {
        OpClass::Sharding | OpClass::Return => Ok(Step::Done(so_far)),
        OpClass::Note => note_step(op, store, so_far),
        OpClass::Creator
        | OpClass::Element
        | OpClass::Layout
        | OpClass::Structured
        | OpClass::Convolution => work_step(alloc, op, store, so_far),
        _ => Ok(Step::Stuck),
    }
}
