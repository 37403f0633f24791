ghost use Rattle.std.specs.Prelude.{◌≡◌, ◌*◌, ◌≤◌, ◌↔◌, All, IfErr, IfOk, IsTrue, OnOk, length};
ghost use Rattle.sh_grid.specs.Grid.{IsGrid};
ghost use Rattle.sh_sharding.specs.Admission.{IsAdmitted, IsRefusal, Keeps, KeepsAllButSize, KeepsHalos, KeepsLists, sharding_of};
ghost use Rattle.sh_sharding.specs.AxisLists.{IsNatural, listed};
ghost use Rattle.sh_sharding.specs.OffsetLists.{marked};
ghost use Rattle.sh_sharding.specs.Sharding.{counted_cells};
ghost use Rattle.sh_base.specs.Shape.{max_cells, max_rank};
ghost use Rattle.sh_base.specs.declared.rules.Rule.TheVariants.{A5};

use crate::axis_lists::{all_listed, are_axes, are_distinct, listed_dimensions};
use crate::halo_sizes::{are_halos, haloed_dimensions, split_count};
use crate::local_sizes::is_local_small;
use crate::offset_lists::marked_dimensions;
use crate::views::dimension_views;
use crate::{Dimension, Sharding};
use sh_base::{Duplicate, Items, Mem, Rule, Shape, shape};
use sh_grid::{Grid, extents};
use sh_ir::RawSharding;
use std::alloc::Global;

/// Why a sharding isn't admitted.
#[derive(Debug, Drop)]
pub enum AdmitRefusal {
    /// The least rule that it breaks.
    Broken(Rule),
    /// Memory is wanting.
    Mem,
}

impl From<Mem> for AdmitRefusal {
    ghost use Rattle.sh_sharding.specs.declared.admission.AdmitRefusal.TheVariants.{Mem as WantOfMemory};

    ghost from_gives = { λ _ e. e ≡ WantOfMemory };

    fn from(_: Mem) -> AdmitRefusal {
        AdmitRefusal::Mem
    }
}

/// The rules on lists of axes alone.
fn check_lists(alloc: Global, g: &Grid, raw: &RawSharding, s: &Shape) -> Result<(), AdmitRefusal>
    ensures grid { IsGrid g.now.extents }
    ensures kept { OnOk result (KeepsLists g.now raw.now s.now) }
    ensures refused { IfErr result (λ refusal. IsRefusal refusal g.now raw.now s.now) }
{
    let rank = extents(g).extents().len() as u64;
    let lists = raw.split.as_slice();
    if !are_axes(lists, rank) {
        return Err(AdmitRefusal::Broken(Rule::A1));
    }
    let listed = all_listed(alloc, lists)?;
    if !are_distinct(listed.as_slice(), rank) {
        return Err(AdmitRefusal::Broken(Rule::A2));
    }
    if lists.len() > s.extents().len() {
        return Err(AdmitRefusal::Broken(Rule::A3));
    }
    Ok(())
}

/// The dimensions with their offsets.
fn divided(
    alloc: Global,
    g: &Grid,
    raw: &RawSharding,
    s: &Shape,
) -> Result<Vec<Dimension>, AdmitRefusal>
    requires grid { IsGrid g.now.extents }
    requires lists { KeepsLists g.now raw.now s.now }
    ensures kept { IfOk result (λ ds. Keeps A5 g.now raw.now s.now
        × (ds.items ≡ marked g.now.extents (listed raw.now.split s.now) raw.now.offsets)) }
    ensures refused { IfErr result (λ refusal. IsRefusal refusal g.now raw.now s.now) }
{
    let dimensions = listed_dimensions(alloc, raw.split.as_slice(), s)?;
    if raw.offsets.is_empty() {
        return Ok(dimensions);
    }
    let offsets = raw.offsets.as_slice();
    match marked_dimensions(alloc, g, dimensions.as_slice(), offsets)? {
        Some(found) => Ok(found),
        None => Err(AdmitRefusal::Broken(Rule::A5)),
    }
}

/// The dimensions with their halos.
fn with_written_halos(
    alloc: Global,
    g: &Grid,
    raw: &RawSharding,
    s: &Shape,
    dimensions: Vec<Dimension>,
) -> Result<Vec<Dimension>, AdmitRefusal>
    requires grid { IsGrid g.now.extents }
    requires small { counted_cells s.now ≤ max_cells }
    requires lists { KeepsLists g.now raw.now s.now }
    requires divisions { Keeps A5 g.now raw.now s.now }
    requires marked { dimensions.items ≡
        marked g.now.extents (listed raw.now.split s.now) raw.now.offsets }
    ensures kept { IfOk result (λ ds. KeepsHalos g.now raw.now s.now
        × (ds.items ≡ (sharding_of g.now raw.now s.now).dimensions)) }
    ensures refused { IfErr result (λ refusal. IsRefusal refusal g.now raw.now s.now) }
{
    let halos = raw.halos.as_slice();
    if halos.is_empty() {
        return Ok(dimensions);
    }
    if !raw.offsets.is_empty() {
        return Err(AdmitRefusal::Broken(Rule::A6));
    }
    let split = split_count(dimensions.as_slice());
    if !are_halos(halos, split) {
        return Err(AdmitRefusal::Broken(Rule::A7));
    }
    match haloed_dimensions(alloc, g, dimensions.as_slice(), halos)? {
        Some(found) => Ok(found),
        None => Err(AdmitRefusal::Broken(Rule::A8)),
    }
}

/// Whether the largest local tensor isn't too large, so that all rules are kept.
fn has_small_parts(g: &Grid, raw: &RawSharding, s: &Shape, dimensions: &[Dimension]) -> bool
    requires kept { KeepsAllButSize g.now raw.now s.now }
    requires dimensions { dimensions.now ≡ (sharding_of g.now raw.now s.now).dimensions }
    requires few { length dimensions.now ≤ max_rank }
    ensures { IsTrue result ↔ IsAdmitted g.now raw.now s.now }
{
    let views = dimension_views(dimensions);
    is_local_small(g, &views[..dimensions.len()])
}

/// The dimensions, if the largest local tensor isn't too large.
fn with_small_parts(
    g: &Grid,
    raw: &RawSharding,
    s: &Shape,
    dimensions: Vec<Dimension>,
) -> Result<Vec<Dimension>, AdmitRefusal>
    requires kept { KeepsAllButSize g.now raw.now s.now }
    requires dimensions { dimensions.items ≡ (sharding_of g.now raw.now s.now).dimensions }
    ensures admitted { IfOk result (λ ds. IsAdmitted g.now raw.now s.now
        × (ds.items ≡ (sharding_of g.now raw.now s.now).dimensions)) }
    ensures refused { IfErr result (λ refusal. IsRefusal refusal g.now raw.now s.now) }
{
    let _short = s.extents();
    if !has_small_parts(g, raw, s, dimensions.as_slice()) {
        return Err(AdmitRefusal::Broken(Rule::A8));
    }
    Ok(dimensions)
}

/// The dimensions of the sharding that is written, if it keeps all rules.
fn admitted_dimensions(
    alloc: Global,
    g: &Grid,
    raw: &RawSharding,
    s: &Shape,
) -> Result<Vec<Dimension>, AdmitRefusal>
    requires small { counted_cells s.now ≤ max_cells }
    ensures grid { IsGrid g.now.extents }
    ensures admitted { IfOk result (λ ds. IsAdmitted g.now raw.now s.now
        × (ds.items ≡ (sharding_of g.now raw.now s.now).dimensions)) }
    ensures refused { IfErr result (λ refusal. IsRefusal refusal g.now raw.now s.now) }
{
    check_lists(alloc, g, raw, s)?;
    let marked = divided(alloc, g, raw, s)?;
    let dimensions = with_written_halos(alloc, g, raw, s, marked)?;
    with_small_parts(g, raw, s, dimensions)
}

/// The sharding that is written for a tensor of a shape, in normal form.
///
/// A written sharding has the name of a grid, for each tensor dimension a list of the grid axes
/// that split it (missing lists are empty), and either halo sizes, or offsets, or neither. It is
/// refused with the first of these rules that it breaks, or for want of memory:
///
/// - A1: each listed axis is one of the grid's.
/// - A2: no axis is listed twice.
/// - A3: there are no more lists than dimensions.
/// - A5: offsets are, for each split dimension in order, the start of each part and then the
///   extent: 0 first, none less than the one before.
/// - A6: there are halo sizes or offsets, not both.
/// - A7: halo sizes are two for each split dimension, at its start and its end; none is negative.
/// - A8: no halo is longer than the smallest part of its dimension, and the largest local tensor,
///   halos included, has at most 1,048,576 cells, an extent of 0 being counted as 1.
pub fn admit(
    alloc: Global,
    g: &Grid,
    raw: &RawSharding,
    s: &Shape,
) -> Result<Sharding, AdmitRefusal>
    requires grid { raw.now.grid ≡ g.now.name }
    requires small { counted_cells s.now ≤ max_cells }
    ensures admitted { IfOk result (λ sharding. IsAdmitted g.now raw.now s.now
        × (sharding ≡ sharding_of g.now raw.now s.now)) }
    ensures refused { IfErr result (λ refusal. IsRefusal refusal g.now raw.now s.now) }
{
    let grid = g.duplicate(alloc)?;
    let dimensions = admitted_dimensions(alloc, g, raw, s)?;
    Ok(Sharding {
        grid,
        whole: shape(alloc, s.extents()),
        dimensions: Items::from_vec(dimensions),
    })
}
