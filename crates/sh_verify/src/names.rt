ghost use Rattle.std.specs.Prelude.{◌≡◌, ◌&&◌, is_some, not, option_map, option_to_list};
ghost use Rattle.std.specs.List.{list_all, list_any};
ghost use Rattle.std.specs.Option.{option_map_or};
ghost use Rattle.sh_ir.specs.Agreement.{has_differing};
ghost use Rattle.sh_ir.specs.Classes.{class_of};
ghost use Rattle.sh_ir.specs.Rules as rules;
ghost use Rattle.sh_ir.specs.Scope.{func_item, grid_item, same_text};
ghost use Rattle.sh_ir.specs.Written.{written_by};

use crate::context::Context;
use crate::forms::{any_differing, has_differing};
use crate::written::{writes_result, written_types};
use sh_ir::{Op, OpClass, OpKind};

// ---- the names of grids and functions that an operation writes

/// The grid that an operation names, if it names one.
fn grid_name(kind: &OpKind) -> Option<&[u8]>
    ensures { option_to_list (option_map (λ s. s.now) result) ≡ (written_by kind.now).grids }
{
    match kind {
        OpKind::Sharding(x) => Some(x.grid.as_slice()),
        OpKind::AllGather(x) => Some(x.on.grid.as_slice()),
        OpKind::AllSlice(x) => Some(x.on.grid.as_slice()),
        OpKind::AllReduce(x) => Some(x.on.grid.as_slice()),
        OpKind::ReduceScatter(x) => Some(x.on.grid.as_slice()),
        OpKind::AllToAll(x) => Some(x.on.grid.as_slice()),
        OpKind::Shift(x) => Some(x.on.grid.as_slice()),
        OpKind::UpdateHalo(x) => Some(x.grid.as_slice()),
        OpKind::Take(x) => Some(x.on.grid.as_slice()),
        _ => None,
    }
}

/// The function that an operation calls, if it is a call.
fn callee_name(kind: &OpKind) -> Option<&[u8]>
    ensures { option_to_list (option_map (λ s. s.now) result) ≡ (written_by kind.now).callees }
{
    match kind {
        OpKind::Call(x) => Some(x.callee.as_slice()),
        _ => None,
    }
}

fn knows_grid(context: &Context<'_>, kind: &OpKind) -> bool
    ensures { result ≡ list_all (λ name. is_some (grid_item context.now.grids name))
        (written_by kind.now).grids }
{
    match grid_name(kind) {
        Some(name) => context.grid(name).is_some(),
        None => true,
    }
}

fn knows_callee(context: &Context<'_>, kind: &OpKind) -> bool
    ensures { result ≡ list_all (λ name. is_some (func_item context.now.funcs name))
        (written_by kind.now).callees }
{
    match callee_name(kind) {
        Some(name) => context.func(name).is_some(),
        None => true,
    }
}

/// Whether the grids and functions that an operation names are there.
#[tactic(auto, unfolding(sh_ir::specs::Rules::names_known))]
pub(crate) fn names_known(context: &Context<'_>, kind: &OpKind) -> bool
    ensures { result ≡ rules.names_known context.now kind.now }
{
    knows_grid(context, kind) && knows_callee(context, kind)
}

// ---- forms

fn is_of_source(class: OpClass) -> bool
    ensures { result ≡ rules.is_of_source class }
{
    match class {
        OpClass::Creator
        | OpClass::Element
        | OpClass::Layout
        | OpClass::Structured
        | OpClass::Convolution
        | OpClass::Sharding
        | OpClass::Note
        | OpClass::Call
        | OpClass::Return => true,
        OpClass::DeviceLayout | OpClass::Collective => false,
    }
}

fn is_of_device(class: OpClass) -> bool
    ensures { result ≡ rules.is_of_device class }
{
    match class {
        OpClass::Creator
        | OpClass::Element
        | OpClass::Layout
        | OpClass::Structured
        | OpClass::Convolution
        | OpClass::DeviceLayout
        | OpClass::Collective
        | OpClass::Return => true,
        OpClass::Sharding | OpClass::Note | OpClass::Call => false,
    }
}

fn writes_differing(op: &Op) -> bool
    ensures { result ≡ list_any has_differing (rules.op_types_of op.now) }
{
    let types = written_types(&op.kind);
    any_differing(types.first)
        || any_differing(types.second)
        || (writes_result(&op.kind) && has_differing(&op.result))
}

/// Whether a function that is called is in source form, if it is there.
#[tactic(auto, unfolding(sh_ir::specs::Rules::calls_source))]
fn calls_source(context: &Context<'_>, kind: &OpKind) -> bool
    ensures { result ≡ rules.calls_source context.now kind.now }
{
    match callee_name(kind) {
        Some(name) => match context.func(name) {
            Some(f) => f.carry.is_none(),
            None => true,
        },
        None => true,
    }
}

fn names_only(grid: &[u8], kind: &OpKind) -> bool
    ensures { result ≡ list_all (same_text grid.now) (written_by kind.now).grids }
{
    match grid_name(kind) {
        Some(name) => grid == name,
        None => true,
    }
}

fn is_in_device_form(grid: &[u8], kind: &OpKind) -> bool
    ensures { result ≡ (rules.is_of_device (class_of kind.now)
        && list_all (same_text grid.now) (written_by kind.now).grids) }
{
    is_of_device(kind.class()) && names_only(grid, kind)
}

fn is_in_source_form(op: &Op) -> bool
    ensures { result ≡ (rules.is_of_source (class_of op.now.kind)
        && not (list_any has_differing (rules.op_types_of op.now))) }
{
    is_of_source(op.kind.class()) && !writes_differing(op)
}

fn has_form(context: &Context<'_>, op: &Op) -> bool
    ensures { result ≡ option_map_or (λ grid. rules.is_of_device (class_of op.now.kind)
        && list_all (same_text grid) (written_by op.now.kind).grids)
        context.now.device (rules.is_of_source (class_of op.now.kind)
        && not (list_any has_differing (rules.op_types_of op.now))) }
{
    match context.device() {
        Some(grid) => is_in_device_form(grid, &op.kind),
        None => is_in_source_form(op),
    }
}

/// Whether an operation may stand in a function of its form, and names no other grid than the one
/// that is carried.
#[tactic(auto, unfolding(sh_ir::specs::Rules::is_in_form))]
pub(crate) fn is_in_form(context: &Context<'_>, op: &Op) -> bool
    ensures { result ≡ rules.is_in_form context.now op.now }
{
    calls_source(context, &op.kind) && has_form(context, op)
}
