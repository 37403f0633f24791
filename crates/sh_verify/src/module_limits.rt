ghost use Rattle.std.specs.Prelude.{◌≡◌, [], ◌+◌, IfErr, None, OnOk, flat_map, map, min, nat_le};
ghost use Rattle.sh_base.specs.Shape.{cell_count};
ghost use Rattle.sh_ir.specs.Faults.{limit_faults};
ghost use Rattle.std.specs.List.{list_all};
ghost use Rattle.sh_ir.specs.Limits.{has_few_cells, has_few_devices, has_few_dims};
ghost use Rattle.sh_base.specs.Limits.{max_devices};
ghost use Rattle.sh_ir.specs.Numbers.{as_natural, as_naturals};
ghost use Rattle.sh_verify.specs.Least.{IsLeast, by_place, least_of};
ghost use Rattle.sh_verify.specs.LimitFaults.{all_in_func, call_limits, func_head_limits, func_limits, grid_limits, has_few_instructions, has_few_operations, module_limits};

use crate::counts::{are_few_instructions, are_few_operations};
use crate::least::{order_is_total, unless_kept};
use crate::op_limits::check_ops;
use crate::sizes::{all_few_cells, all_few_dims, is_few_cells, is_few_dims};
use sh_base::{Refusal, Rule};
use sh_grid::{MAX_AXES, MAX_DEVICES};
use sh_ir::{Arg, CallItem, Constant, Cut, Func, GridItem, Module};

// ---- grids

/// A written number, as one that isn't negative and is cut where it is greater than the most devices.
pub(crate) fn device_extent(extent: &i128) -> u64
    ensures { result ≡ min (max_devices + 1) (as_natural extent.now) }
{
    let written = *extent;
    if written > MAX_DEVICES as i128 {
        MAX_DEVICES + 1
    } else if written < 0 {
        0
    } else {
        written as u64
    }
}

/// Whether the product of extents is at most the most devices. An extent of 0 makes it 0.
fn have_few_devices(extents: &[i128]) -> bool
    ensures { result ≡ nat_le (cell_count (as_naturals extents.now)) max_devices }
{
    let mut count: u64 = 1;
    for extent in extents {
        count = (count * device_extent(extent)).min(MAX_DEVICES + 1);
    }
    count <= MAX_DEVICES
}

#[tactic(auto, using(crate::proofs::LeastLaws::least_of_both), unfolding(crate::specs::LimitFaults::grid_limits, sh_ir::specs::Limits::has_few_devices))]
fn check_grid(least: Option<Refusal>, g: &GridItem) -> Option<Refusal>
    ensures { result ≡ least_of by_place least (grid_limits g.now) }
{
    let least = unless_kept(least, g.extents.len() <= MAX_AXES, g.place, Rule::L2);
    let few = have_few_devices(g.extents.as_slice());
    unless_kept(least, few, g.place, Rule::L3)
}

fn check_grids(least: Option<Refusal>, grids: &[GridItem]) -> Option<Refusal>
    ensures { result ≡ least_of by_place least (flat_map grid_limits grids.now) }
{
    let mut found = least;
    for g in grids {
        found = check_grid(found, g);
    }
    found
}

// ---- functions

fn args_few_dims(args: &[Arg]) -> bool
    ensures { result ≡ list_all (λ arg. has_few_dims arg.value_type) args.now }
{
    args.iter().all(|arg| is_few_dims(&arg.value_type))
}

fn args_few_cells(args: &[Arg]) -> bool
    ensures { result ≡ list_all (λ arg. has_few_cells arg.value_type) args.now }
{
    args.iter().all(|arg| is_few_cells(&arg.value_type))
}

fn cuts_few_dims(cuts: &[Cut]) -> bool
    ensures { result ≡ list_all (λ cut. has_few_dims cut.whole) cuts.now }
{
    cuts.iter().all(|cut| is_few_dims(&cut.whole))
}

fn cuts_few_cells(cuts: &[Cut]) -> bool
    ensures { result ≡ list_all (λ cut. has_few_cells cut.whole) cuts.now }
{
    cuts.iter().all(|cut| is_few_cells(&cut.whole))
}

fn has_small_ranks(f: &Func) -> bool
    ensures { result ≡ all_in_func has_few_dims f.now }
{
    let signature = args_few_dims(f.args.as_slice()) && all_few_dims(f.results.as_slice());
    match &f.carry {
        Some(carry) => {
            let cuts = cuts_few_dims(carry.args.as_slice())
                && cuts_few_dims(carry.results.as_slice());
            signature && cuts
        }
        None => signature,
    }
}

fn has_small_types(f: &Func) -> bool
    ensures { result ≡ all_in_func has_few_cells f.now }
{
    let signature = args_few_cells(f.args.as_slice()) && all_few_cells(f.results.as_slice());
    match &f.carry {
        Some(carry) => {
            let cuts = cuts_few_cells(carry.args.as_slice())
                && cuts_few_cells(carry.results.as_slice());
            signature && cuts
        }
        None => signature,
    }
}

#[tactic(auto, unfolding(crate::specs::LimitFaults::has_few_operations))]
fn operations_fit(f: &Func) -> bool
    ensures { result ≡ has_few_operations f.now }
{
    f.carry.is_some() || are_few_operations(f.ops.as_slice())
}

#[tactic(auto, unfolding(crate::specs::LimitFaults::has_few_instructions))]
fn instructions_fit(f: &Func) -> bool
    ensures { result ≡ has_few_instructions f.now }
{
    f.carry.is_none() || are_few_instructions(f.ops.as_slice())
}

#[tactic(auto, using(crate::proofs::LeastLaws::least_of_both), unfolding(crate::specs::LimitFaults::func_head_limits))]
fn check_head(least: Option<Refusal>, f: &Func) -> Option<Refusal>
    ensures { result ≡ least_of by_place least (func_head_limits f.now) }
{
    let least = unless_kept(least, has_small_ranks(f), f.place, Rule::L2);
    let least = unless_kept(least, has_small_types(f), f.place, Rule::L4);
    let least = unless_kept(least, operations_fit(f), f.place, Rule::L5);
    unless_kept(least, instructions_fit(f), f.place, Rule::L7)
}

#[tactic(auto, using(crate::proofs::LeastLaws::least_of_both), unfolding(crate::specs::LimitFaults::func_limits))]
fn check_func(least: Option<Refusal>, f: &Func) -> Option<Refusal>
    ensures { result ≡ least_of by_place least (func_limits f.now) }
{
    let least = check_head(least, f);
    check_ops(least, f.carry.is_some(), f.ops.as_slice())
}

fn check_funcs(least: Option<Refusal>, funcs: &[Func]) -> Option<Refusal>
    ensures { result ≡ least_of by_place least (flat_map func_limits funcs.now) }
{
    let mut found = least;
    for f in funcs {
        found = check_func(found, f);
    }
    found
}

// ---- call items

fn constants_few_dims(constants: &[Constant]) -> bool
    ensures { result ≡ list_all (λ c. has_few_dims c.value_type) constants.now }
{
    constants
        .iter()
        .all(|constant| is_few_dims(&constant.value_type))
}

fn constants_few_cells(constants: &[Constant]) -> bool
    ensures { result ≡ list_all (λ c. has_few_cells c.value_type) constants.now }
{
    constants
        .iter()
        .all(|constant| is_few_cells(&constant.value_type))
}

#[tactic(auto, using(crate::proofs::LeastLaws::least_of_both), unfolding(crate::specs::LimitFaults::call_limits))]
fn check_call(least: Option<Refusal>, item: &CallItem) -> Option<Refusal>
    ensures { result ≡ least_of by_place least (call_limits item.now) }
{
    let args = item.args.as_slice();
    let least = unless_kept(least, constants_few_dims(args), item.place, Rule::L2);
    unless_kept(least, constants_few_cells(args), item.place, Rule::L4)
}

fn check_calls(least: Option<Refusal>, items: &[CallItem]) -> Option<Refusal>
    ensures { result ≡ least_of by_place least (flat_map call_limits items.now) }
{
    let mut found = least;
    for item in items {
        found = check_call(found, item);
    }
    found
}

// ---- modules

#[tactic(auto, using(crate::proofs::LeastLaws::least_of_both), unfolding(crate::specs::LimitFaults::module_limits))]
fn check_module(m: &Module) -> Option<Refusal>
    ensures { result ≡ least_of by_place None (module_limits m.now) }
{
    let least = check_grids(None, m.grids.as_slice());
    let least = check_funcs(least, m.funcs.as_slice());
    check_calls(least, m.calls.as_slice())
}

/// Whether a module keeps the limits. It is refused at the first place that passes one, there with the
/// least code:
///
/// - L2: a rank is at most 6, `linalg.generic` has at most six loops, a grid has at most four axes.
/// - L3: a grid has at most 1,024 devices.
/// - L4: a written type has at most 1,048,576 cells by its known extents, an extent of 0 being counted
///   as 1.
/// - L5: a function in source form has at most 10,000 operations, the return and the operations of
///   regions included, yields, shardings and notes not.
/// - L6: `linalg.generic` names at most three inputs, nine in device form.
/// - L7: a function in device form has at most 100,000 instructions, the return and regions not
///   included.
///
/// It takes no memory.
pub fn limits(m: &Module) -> Result<(), Refusal>
    ensures kept { OnOk result (limit_faults m.now ≡ []) }
    ensures refused { IfErr result (λ refusal. IsLeast by_place (limit_faults m.now) refusal) }
{
    order_is_total::<Refusal>();
    match check_module(m) {
        None => Ok(()),
        Some(refusal) => Err(refusal),
    }
}
