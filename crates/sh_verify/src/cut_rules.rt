ghost use Rattle.std.specs.Prelude.{◌≡◌, ◌↔◌, IfErr, IfOk, IsTrue, List, length, map};
ghost use Rattle.std.specs.List.{All, AllByRecursion};
ghost use Rattle.std.specs.Option.{SomeIff};
ghost use Rattle.sh_base.specs.declared.places.Refusal.{Refusal as Fault};
ghost use Rattle.sh_grid.specs.Grid.{IsGrid};
ghost use Rattle.sh_ir.specs.Limits.{has_few_dims};
ghost use Rattle.sh_ir.specs.Shapes.{extent_of, shape_of};
ghost use Rattle.sh_sharding.specs.Admission.{IsRefusal};
ghost use Rattle.sh_sharding.specs.Carried.{carried, grid_of, local_type, local_types};
ghost use Rattle.sh_sharding.specs.CutRules.{FitsOn, KeepsCuts};
ghost use Rattle.sh_sharding.specs.LocalTypes.{local_dims};
ghost use Rattle.sh_verify.specs.CutFaults.{AreCutFaults, HasReadyCuts, IsCutAdmitted, IsReadyCut};
ghost use Rattle.sh_verify.specs.Least.{by_place, least_of};

use crate::least::unless_kept;
use crate::module_limits::device_extent;
use crate::sizes::dims;
use crate::tables::Tables;
use sh_base::{Duplicate, MAX_RANK, Mem, Refusal, Rule, Same, Shape, shape};
use sh_grid::{Grid, make};
use sh_ir::{Arg, Carry, Cut, Dim, Func, GridItem, ValueType};
use sh_sharding::{AdmitRefusal, Sharding, admit, local_extent, rank};
use std::alloc::Global;

// ---- grids and shapes

/// The grid of a grid item, if there can be such a grid.
fn grid_of_item(alloc: Global, item: &GridItem) -> Result<Option<Grid>, Mem>
    ensures { IfOk result (λ found. SomeIff found (IsGrid (grid_of item.now).extents) (grid_of item.now)) }
{
    let mut extents: Vec<u64> = Vec::new(alloc);
    for extent in item.extents.as_slice() {
        extents.push(device_extent(extent))?;
    }
    if extents.len() > MAX_RANK {
        return Ok(None);
    }
    let name = item.name.duplicate(alloc)?;
    Ok(make(name, shape(alloc, extents.as_slice())))
}

/// The extent of a whole tensor; it has none that is `?`.
fn extent(dim: Dim) -> u64
    ensures { result ≡ extent_of dim }
{
    match dim {
        Dim::Known(extent) => extent,
        Dim::Differs => 0,
    }
}

fn whole_shape(alloc: Global, value_type: &ValueType) -> Result<Shape, Mem>
    requires { IsTrue (has_few_dims value_type.now) }
    ensures { IfOk result (λ s. s ≡ shape_of value_type.now) }
{
    let mut extents: Vec<u64> = Vec::new(alloc);
    for dim in dims(value_type) {
        extents.push(extent(*dim))?;
    }
    Ok(shape(alloc, extents.as_slice()))
}

// ---- admission

fn admit_cut(alloc: Global, g: &Grid, cut: &Cut) -> Result<Sharding, AdmitRefusal>
    requires { IsReadyCut g.now.name cut.now }
    ensures admitted { IfOk result (λ s. IsCutAdmitted g.now cut.now
        × (s ≡ carried g.now cut.now)) }
    ensures refused { IfErr result (λ refusal.
        IsRefusal refusal g.now cut.now.sharding (shape_of cut.now.whole)) }
{
    let whole = whole_shape(alloc, &cut.whole)?;
    admit(alloc, g, &cut.sharding, &whole)
}

fn is_cut_admitted(alloc: Global, g: &Grid, cut: &Cut) -> Result<bool, Mem>
    requires { IsReadyCut g.now.name cut.now }
    ensures { IfOk result (λ kept. IsTrue kept ↔ IsCutAdmitted g.now cut.now) }
{
    match admit_cut(alloc, g, cut) {
        Ok(_) => Ok(true),
        Err(AdmitRefusal::Broken(_)) => Ok(false),
        Err(AdmitRefusal::Mem) => Err(Mem),
    }
}

fn are_admitted(alloc: Global, g: &Grid, cuts: &[Cut]) -> Result<bool, Mem>
    requires { All (IsReadyCut g.now.name) cuts.now }
    ensures { IfOk result (λ kept. IsTrue kept ↔ AllByRecursion (IsCutAdmitted g.now) cuts.now) }
{
    for cut in cuts {
        if !is_cut_admitted(alloc, g, cut)? {
            return Ok(false);
        }
    }
    Ok(true)
}

/// The sharding of a cut that is admitted.
fn admitted(alloc: Global, g: &Grid, cut: &Cut) -> Result<Sharding, Mem>
    requires ready { IsReadyCut g.now.name cut.now }
    requires admitted { IsCutAdmitted g.now cut.now }
    ensures { IfOk result (λ s. s ≡ carried g.now cut.now) }
{
    match admit_cut(alloc, g, cut) {
        Ok(sharding) => Ok(sharding),
        Err(AdmitRefusal::Mem) => Err(Mem),
        Err(AdmitRefusal::Broken(_)) => unreachable!(),
    }
}

// ---- local types

/// Whether these are the extents of the local tensors.
fn has_local_dims(s: &Sharding, dims: &[Dim]) -> bool
    ensures { IsTrue result ↔ (dims.now ≡ local_dims s.now) }
{
    if dims.len() as u64 != rank(s) {
        return false;
    }
    for (at, dim) in dims.iter().enumerate() {
        if *dim != local_extent(s, at as u64) {
            return false;
        }
    }
    true
}

/// Whether this is the type of the local tensors of an admitted cut.
fn has_local_type(alloc: Global, g: &Grid, cut: &Cut, local: &ValueType) -> Result<bool, Mem>
    requires ready { IsReadyCut g.now.name cut.now }
    requires admitted { IsCutAdmitted g.now cut.now }
    ensures { IfOk result (λ kept.
        IsTrue kept ↔ (local.now ≡ local_type (carried g.now cut.now) cut.now.whole)) }
{
    match (&cut.whole, local) {
        (ValueType::Tensor(whole), ValueType::Tensor(part)) => {
            let sharding = admitted(alloc, g, cut)?;
            let same_width = part.width.same(&whole.width);
            Ok(same_width && has_local_dims(&sharding, part.dims.as_slice()))
        }
        (ValueType::Tensor(_), _) => Ok(false),
        (whole, part) => Ok(part.same(whole)),
    }
}

fn args_are_local(alloc: Global, g: &Grid, cuts: &[Cut], args: &[Arg]) -> Result<bool, Mem>
    requires ready { All (IsReadyCut g.now.name) cuts.now }
    requires admitted { AllByRecursion (IsCutAdmitted g.now) cuts.now }
    ensures { IfOk result (λ kept. IsTrue kept
        ↔ (map (λ arg. arg.value_type) args.now ≡ local_types g.now cuts.now)) }
{
    if args.len() != cuts.len() {
        return Ok(false);
    }
    for (at, cut) in cuts.iter().enumerate() {
        if !has_local_type(alloc, g, cut, &args[at].value_type)? {
            return Ok(false);
        }
    }
    Ok(true)
}

fn types_are_local(alloc: Global, g: &Grid, cuts: &[Cut], types: &[ValueType]) -> Result<bool, Mem>
    requires ready { All (IsReadyCut g.now.name) cuts.now }
    requires admitted { AllByRecursion (IsCutAdmitted g.now) cuts.now }
    ensures { IfOk result (λ kept. IsTrue kept ↔ (types.now ≡ local_types g.now cuts.now)) }
{
    if types.len() != cuts.len() {
        return Ok(false);
    }
    for (at, cut) in cuts.iter().enumerate() {
        if !has_local_type(alloc, g, cut, &types[at])? {
            return Ok(false);
        }
    }
    Ok(true)
}

// ---- functions

/// Whether arguments and results are of the local types, if all cuts are admitted.
fn fits_on(alloc: Global, g: &Grid, f: &Func, carry: &Carry) -> Result<bool, Mem>
    requires args { All (IsReadyCut g.now.name) carry.now.args }
    requires results { All (IsReadyCut g.now.name) carry.now.results }
    requires grid { IsGrid g.now.extents }
    ensures { IfOk result (λ kept. IsTrue kept ↔ FitsOn g.now f.now carry.now) }
{
    let args = carry.args.as_slice();
    let results = carry.results.as_slice();
    if !are_admitted(alloc, g, args)? {
        return Ok(true);
    }
    if !are_admitted(alloc, g, results)? {
        return Ok(true);
    }
    let args_fit = args_are_local(alloc, g, args, f.args.as_slice())?;
    let results_fit = types_are_local(alloc, g, results, f.results.as_slice())?;
    Ok(args_fit && results_fit)
}

fn keeps_cuts(alloc: Global, tables: &Tables<'_>, f: &Func) -> Result<bool, Mem>
    requires { HasReadyCuts f.now }
    ensures { IfOk result (λ kept. IsTrue kept ↔ KeepsCuts tables.now f.now) }
{
    match &f.carry {
        None => Ok(true),
        Some(carry) => match tables.grid(carry.grid.as_slice()) {
            None => Ok(true),
            Some(item) => match grid_of_item(alloc, item)? {
                None => Ok(true),
                Some(g) => fits_on(alloc, &g, f, carry),
            },
        },
    }
}

/// The least of the refusals so far and of the functions whose carried cuts give other types.
pub(crate) fn check_cuts(
    alloc: Global,
    least: Option<Refusal>,
    tables: &Tables<'_>,
    funcs: &[Func],
) -> Result<Option<Refusal>, Mem>
    requires { All HasReadyCuts funcs.now }
    ensures { IfOk result (λ found. (faults : List Fault)
        × AreCutFaults tables.now funcs.now faults × (found ≡ least_of by_place least faults)) }
{
    let mut found = least;
    for f in funcs {
        let kept = keeps_cuts(alloc, tables, f)?;
        found = unless_kept(found, kept, f.place, Rule::V10);
    }
    Ok(found)
}
