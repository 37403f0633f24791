ghost use Rattle.std.specs.Prelude.{◌≡◌, ◌+◌, ◌&&◌, length, map, nat_eq, nat_lt};
ghost use Rattle.std.specs.Cmp.Lexicographic.{pointwise};
ghost use Rattle.std.specs.List.{list_all, list_any, range_with_len};
ghost use Rattle.sh_ir.specs.Maps as maps;
ghost use Rattle.sh_ir.specs.Numbers as numbers;
ghost use Rattle.sh_ir.specs.Regions.{is_among};

use crate::loop_maps::{Operands, follow};
use sh_ir::{AffineMap, Generic, IteratorType};

// ---- numbers of loops

pub(crate) fn contains(names: &[u32], name: u64) -> bool
    ensures { result ≡ is_among names.now name }
{
    for other in names {
        if name == *other as u64 {
            return true;
        }
    }
    false
}

fn are_distinct(names: &[u32]) -> bool
    ensures { result ≡ numbers.are_distinct names.now }
{
    for (at, name) in names.iter().enumerate() {
        let (_, others) = names.split_at(at + 1);
        if contains(others, *name as u64) {
            return false;
        }
    }
    true
}

fn are_below(names: &[u32], bound: usize) -> bool
    ensures { result ≡ list_all (λ l. nat_lt l bound) names.now }
{
    names.iter().all(|name| (*name as u64) < bound as u64)
}

/// Whether names are all numbers below a bound, in order.
fn count_up(names: &[u32], bound: usize) -> bool
    ensures { result ≡ pointwise nat_eq names.now (range_with_len 0 bound) }
{
    if names.len() != bound {
        return false;
    }
    for (at, name) in names.iter().enumerate() {
        if *name as u64 != at as u64 {
            return false;
        }
    }
    true
}

// ---- maps

/// Whether a map names all loops on the left, and on the right a loop for each dimension, none
/// twice.
#[tactic(auto, unfolding(sh_ir::specs::Maps::is_projection))]
fn is_projection(loops: usize, map: &AffineMap) -> bool
    ensures { result ≡ maps.is_projection loops map.now }
{
    let results = map.results.as_slice();
    count_up(map.loops.as_slice(), loops) && are_below(results, loops) && are_distinct(results)
}

fn are_projections(loops: usize, affine_maps: &[AffineMap]) -> bool
    ensures { result ≡ list_all (maps.is_projection loops) affine_maps.now }
{
    for map in affine_maps {
        if !is_projection(loops, map) {
            return false;
        }
    }
    true
}

/// Whether there is one output, and a map for each operand.
#[tactic(auto, unfolding(sh_ir::specs::Maps::has_all_maps))]
fn has_all_maps(x: &Generic) -> bool
    ensures { result ≡ maps.has_all_maps x.now }
{
    let inputs = x.ins_outs.ins_count as u128;
    x.ins_outs.outs_count == 1 && x.indexing_maps.len() as u128 == inputs + 1
}

#[tactic(auto, unfolding(sh_ir::specs::Maps::operands_follow))]
fn operands_follow(x: &Generic) -> bool
    ensures { result ≡ maps.operands_follow x.now }
{
    follow(Operands::Written(x))
}

// ---- loops

fn is_used(affine_maps: &[AffineMap], number: u64) -> bool
    ensures { result ≡ maps.is_used (map (λ m. m.results) affine_maps.now) number }
{
    for map in affine_maps {
        if contains(map.results.as_slice(), number) {
            return true;
        }
    }
    false
}

fn all_used(affine_maps: &[AffineMap], loops: usize) -> bool
    ensures { result ≡ list_all (maps.is_used (map (λ m. m.results) affine_maps.now))
        (range_with_len 0 loops) }
{
    for number in 0..loops {
        if !is_used(affine_maps, number as u64) {
            return false;
        }
    }
    true
}

/// The loops of the output.
fn output_loops(x: &Generic) -> &[u32]
    ensures { result.now ≡ maps.output_loops x.now }
{
    let count = x.indexing_maps.len();
    if count == 0 {
        return &[];
    }
    match x.indexing_maps.get(count - 1) {
        Some(map) => map.results.as_slice(),
        None => &[],
    }
}

fn is_iterator(in_output: bool, iterator: IteratorType) -> bool
    ensures { result ≡ maps.is_iterator in_output iterator }
{
    match iterator {
        IteratorType::Parallel => in_output,
        IteratorType::Reduction => !in_output,
        IteratorType::Unknown => false,
    }
}

fn are_iterators(output: &[u32], iterators: &[IteratorType]) -> bool
    ensures { result ≡ pointwise (λ l iterator. maps.is_iterator (is_among output.now l) iterator)
        (range_with_len 0 (length iterators.now)) iterators.now }
{
    for (at, iterator) in iterators.iter().enumerate() {
        if !is_iterator(contains(output, at as u64), *iterator) {
            return false;
        }
    }
    true
}

#[tactic(auto, unfolding(sh_ir::specs::Maps::iterators_fit))]
fn iterators_fit(x: &Generic) -> bool
    ensures { result ≡ maps.iterators_fit x.now }
{
    are_iterators(output_loops(x), x.iterator_types.as_slice())
}

fn uses_all_loops(x: &Generic) -> bool
    ensures { result ≡ maps.uses_all_loops x.now }
{
    all_used(x.indexing_maps.as_slice(), x.iterator_types.len())
}

/// Whether the maps and iterators of a generic are in order.
#[tactic(auto, unfolding(sh_ir::specs::Maps::maps_fit))]
pub(crate) fn maps_fit(x: &Generic) -> bool
    ensures { result ≡ maps.maps_fit x.now }
{
    has_all_maps(x)
        && are_projections(x.iterator_types.len(), x.indexing_maps.as_slice())
        && operands_follow(x)
        && uses_all_loops(x)
        && iterators_fit(x)
}
