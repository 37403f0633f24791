ghost use Rattle.std.specs.Prelude.{◌≡◌, ◌≤◌, ◌↔◌, ◌∷◌, [], length, map, nat_eq, true, IsTrue};
ghost use Rattle.std.specs.Cmp.Lexicographic.{pointwise};
ghost use Rattle.sh_base.specs.Shape.{max_rank};
ghost use Rattle.sh_loops.specs.Folds.{coordinate_of};
ghost use Rattle.sh_loops.specs.Nests.{all_follow_loops};
ghost use Rattle.sh_loops.specs.Sizes.{AreRanked, agreed_extents, all_with_room, has_room_for, with_room};
ghost use Rattle.sh_loops.specs.Sizes.{extent_by, extents_with, first_alone};
ghost use Rattle.sh_sem.specs.Nest.{followed};

use crate::points::entry;
use sh_base::{Ids, Items, Shape, shape};
use sh_tensor::Tensor;
use smallvec::SmallVec;
use std::alloc::Global;

/// Whether a dimension follows this loop alone.
fn follows_alone(loops: &[u32], l: u32) -> bool
    ensures { result ≡ pointwise nat_eq loops.now (l ∷ []) }
{
    if loops.len() != 1 {
        return false;
    }
    loops[0] == l
}

/// The extent of the first dimension of an operand that follows a loop alone.
fn extent_in(dims: &[Ids], shape: &[u64], l: u32) -> Option<u64>
    requires { length dims.now ≡ length shape.now }
    ensures { result ≡ first_alone (followed dims.now shape.now) l }
{
    for at in 0..dims.len() {
        if follows_alone(dims[at].as_slice(), l) {
            return Some(shape[at]);
        }
    }
    None
}

/// The extent of a loop: that of the first dimension which follows it alone; 0 where none does.
fn extent_of(maps: &[Items<Ids>], operands: &[&Tensor], l: u32) -> u64
    requires { AreRanked maps.now (map (λ t. t.now) operands.now) }
    ensures { result ≡ extent_by maps.now (map (λ t. t.now) operands.now) l }
{
    for at in 0..maps.len() {
        let extents = operands[at].shape().extents();
        match extent_in(maps[at].as_slice(), extents, l) {
            Some(extent) => return extent,
            None => {}
        }
    }
    0
}

/// The extents of so many loops. It takes no memory.
pub(crate) fn extents(alloc: Global, maps: &[Items<Ids>], operands: &[&Tensor], loops: u32) -> Shape
    requires few { loops ≤ max_rank }
    requires ranked { AreRanked maps.now (map (λ t. t.now) operands.now) }
    ensures { result ≡ extents_with maps.now (map (λ t. t.now) operands.now) loops }
{
    let mut found: SmallVec<u64, 6> = SmallVec::new(alloc);
    for l in 0..loops {
        found.push_reserved(extent_of(maps, operands, l));
    }
    shape(alloc, found.as_slice())
}

/// Whether each operand has as many dimensions as its map.
pub(crate) fn is_ranked(maps: &[Items<Ids>], operands: &[&Tensor]) -> bool
    ensures { IsTrue result ↔ AreRanked maps.now (map (λ t. t.now) operands.now) }
{
    if maps.len() != operands.len() {
        return false;
    }
    for at in 0..maps.len() {
        if maps[at].len() != operands[at].shape().extents().len() {
            return false;
        }
    }
    true
}

/// The extents of these loops together.
fn total_extent(extents: &[u64], loops: &[u32]) -> u128
    ensures { result ≡ coordinate_of extents.now loops.now }
{
    let mut total: u128 = 0;
    for l in loops {
        total += u128::from(entry(extents, *l));
    }
    total
}

/// Whether a dimension of this extent has room for the loops that it follows.
fn has_room(extents: &[u64], loops: &[u32], extent: u64) -> bool
    ensures { result ≡ has_room_for extents.now loops.now extent }
{
    if loops.is_empty() {
        return true;
    }
    if loops.len() != 1 && entry(extents, loops[0]) == 0 {
        return true;
    }
    u128::from(extent) + (loops.len() - 1) as u128 == total_extent(extents, loops)
}

/// Whether each dimension of an operand has room for the loops that it follows.
fn dims_have_room(extents: &[u64], dims: &[Ids], shape: &[u64]) -> bool
    requires { length dims.now ≡ length shape.now }
    ensures { result ≡ with_room extents.now (followed dims.now shape.now) }
{
    for at in 0..dims.len() {
        if !has_room(extents, dims[at].as_slice(), shape[at]) {
            return false;
        }
    }
    true
}

/// Whether each dimension of all operands has.
fn all_have_room(extents: &[u64], maps: &[Items<Ids>], operands: &[&Tensor]) -> bool
    requires { AreRanked maps.now (map (λ t. t.now) operands.now) }
    ensures { result ≡ all_with_room extents.now maps.now (map (λ t. t.now) operands.now) }
{
    for at in 0..maps.len() {
        let shape = operands[at].shape().extents();
        if !dims_have_room(extents, maps[at].as_slice(), shape) {
            return false;
        }
    }
    true
}

/// The extents of so many loops, where the operands' sizes agree. It takes no memory.
pub(crate) fn agreed(
    alloc: Global,
    maps: &[Items<Ids>],
    operands: &[&Tensor],
    loops: u32,
) -> Option<Shape>
    requires few { loops ≤ max_rank }
    requires follow { all_follow_loops loops maps.now ≡ true }
    ensures { result ≡ agreed_extents maps.now (map (λ t. t.now) operands.now) loops }
{
    if !is_ranked(maps, operands) {
        return None;
    }
    let found = extents(alloc, maps, operands, loops);
    if !all_have_room(found.extents(), maps, operands) {
        return None;
    }
    Some(found)
}
