ghost use Rattle.std.specs.Prelude.{◌≡◌, ◌≤◌, ◌∷◌, [], length, map, take, drop, nat_eq, option_map, IfOk, Some};
ghost use Rattle.std.specs.List.{position_or_len, range_with_len};
ghost use Rattle.sh_base.specs.Shape.{max_rank};
ghost use Rattle.sh_loops.specs.Structures.{HasFewLoops, loops_in, one_input, two_inputs};
ghost use Rattle.sh_ir.specs.Agreement.{rank_of};
ghost use Rattle.sh_ir.specs.Loops.{broadcast_structure, copy, generic_structure, identity_map};
ghost use Rattle.sh_ir.specs.Loops.{first_results as results_of_first, input_rank, output_rank};
ghost use Rattle.sh_ir.specs.Loops.{places_in, reduce_structure, single, structure_of};
ghost use Rattle.sh_ir.specs.Loops.{transpose_structure, unlisted};
ghost use Rattle.sh_ir.specs.Numbers.{as_natural, as_naturals};
ghost use Rattle.sh_ir.specs.Regions.{is_among};
ghost use Rattle.sh_ir.specs.Written.{first_type};

use sh_base::{Ids, Items, Mem};
use sh_ir::{AffineMap, Broadcast, Generic, InsOuts, OpKind, Reduce, Transpose, ValueType};
use std::alloc::Global;

/// The loops of a structured operation, and for each operand how its dimensions follow them.
#[derive(Drop)]
pub(crate) struct Loops {
    pub(crate) count: u32,
    pub(crate) inputs: Items<Items<Ids>>,
    pub(crate) output: Items<Ids>,
}

// ---- maps by numbers

/// A map whose dimensions sum the coordinates of two loops each.
fn pair_map(alloc: Global, dims: &[[u32; 2]]) -> Result<Items<Ids>, Mem>
    ensures { IfOk result (λ m. m ≡ dims.now) }
{
    let mut map: Vec<Ids> = Vec::with_capacity(alloc, dims.len())?;
    for loops in dims {
        map.push(Items::from_vec(Vec::from_slice(alloc, loops)?))?;
    }
    Ok(Items::from_vec(map))
}

/// A map each of whose dimensions follows one loop.
fn single_map(alloc: Global, loops: &[u32]) -> Result<Items<Ids>, Mem>
    ensures { IfOk result (λ m. m ≡ single loops.now) }
{
    let mut map: Vec<Ids> = Vec::with_capacity(alloc, loops.len())?;
    for l in loops {
        map.push(Items::from_vec(vec![in alloc; *l]?))?;
    }
    Ok(Items::from_vec(map))
}

/// The numbers below a bound.
fn below(alloc: Global, bound: u32) -> Result<Vec<u32>, Mem>
    ensures { IfOk result (λ numbers. numbers.items ≡ range_with_len 0 bound) }
{
    let mut numbers: Vec<u32> = Vec::new(alloc);
    for number in 0..bound {
        numbers.push(number)?;
    }
    Ok(numbers)
}

/// A written number, as one that isn't negative.
pub fn natural(number: &i128) -> u128
    ensures { result ≡ as_natural number.now }
{
    let written = *number;
    if written < 0 { 0 } else { written as u128 }
}

/// Whether a number is listed.
fn is_listed(listed: &[i128], number: u32) -> bool
    ensures { result ≡ is_among (as_naturals listed.now) number }
{
    for other in listed {
        if natural(other) == u128::from(number) {
            return true;
        }
    }
    false
}

/// The numbers below a bound that aren't listed.
fn unlisted_below(alloc: Global, bound: u32, listed: &[i128]) -> Result<Vec<u32>, Mem>
    ensures { IfOk result (λ numbers. numbers.items ≡ unlisted bound (as_naturals listed.now)) }
{
    let mut numbers: Vec<u32> = Vec::new(alloc);
    for number in 0..bound {
        if !is_listed(listed, number) {
            numbers.push(number)?;
        }
    }
    Ok(numbers)
}

/// Where a number stands in a list; its length where it doesn't.
fn place_of(written: &[i128], number: u32) -> usize
    ensures value { result ≡ position_or_len (nat_eq number) (as_naturals written.now) }
    ensures below { result ≤ length written.now }
{
    for (at, other) in written.iter().enumerate() {
        if natural(other) == u128::from(number) {
            return at;
        }
    }
    written.len()
}

/// Where each number below a bound stands in a list.
fn places(alloc: Global, bound: u32, written: &[i128]) -> Result<Vec<u32>, Mem>
    requires short { length written.now ≤ max_rank }
    ensures { IfOk result (λ places. places.items ≡ places_in bound (as_naturals written.now)) }
{
    let mut found: Vec<u32> = Vec::new(alloc);
    for number in 0..bound {
        found.push(place_of(written, number) as u32)?;
    }
    Ok(found)
}

/// Dimension i follows loop i.
fn identity(alloc: Global, rank: u32) -> Result<Items<Ids>, Mem>
    ensures { IfOk result (λ m. m ≡ identity_map rank) }
{
    single_map(alloc, below(alloc, rank)?.as_slice())
}

/// The dimensions below a rank that aren't listed, each following one loop.
fn kept(alloc: Global, rank: u32, listed: &[i128]) -> Result<Items<Ids>, Mem>
    ensures { IfOk result (λ m. m ≡ single (unlisted rank (as_naturals listed.now))) }
{
    single_map(alloc, unlisted_below(alloc, rank, listed)?.as_slice())
}

/// Dimension i follows the loop at whose place i stands.
fn permuted(alloc: Global, rank: u32, permutation: &[i128]) -> Result<Items<Ids>, Mem>
    requires short { length permutation.now ≤ max_rank }
    ensures { IfOk result (λ m. m ≡ single (places_in rank (as_naturals permutation.now))) }
{
    single_map(alloc, places(alloc, rank, permutation)?.as_slice())
}

// ---- operations

/// How many dimensions the first of these types has.
fn first_rank(types: &[ValueType]) -> usize
    ensures { result ≡ rank_of (first_type types.now) }
{
    match types.first() {
        Some(ValueType::Tensor(first)) => first.dims.len(),
        _ => 0,
    }
}

/// Two inputs, whose dimensions follow one loop each.
fn product(
    alloc: Global,
    count: u32,
    first: &[u32],
    second: &[u32],
    output: &[u32],
) -> Result<Option<Loops>, Mem>
    ensures { IfOk result (λ l. l
        ≡ Some (two_inputs count (single first.now) (single second.now) (single output.now))) }
{
    let first = single_map(alloc, first)?;
    let second = single_map(alloc, second)?;
    let output = single_map(alloc, output)?;
    let inputs = Items::from_vec(vec![in alloc; first, second]?);
    Ok(Some(Loops {
        count,
        inputs,
        output,
    }))
}

/// An input whose dimensions sum a window's coordinate and a kernel's, and the kernel.
fn convolution(
    alloc: Global,
    count: u32,
    windows: &[[u32; 2]],
    kernel: &[u32],
    output: &[u32],
) -> Result<Option<Loops>, Mem>
    ensures { IfOk result (λ l. l
        ≡ Some (two_inputs count windows.now (single kernel.now) (single output.now))) }
{
    let first = pair_map(alloc, windows)?;
    let second = single_map(alloc, kernel)?;
    let output = single_map(alloc, output)?;
    let inputs = Items::from_vec(vec![in alloc; first, second]?);
    Ok(Some(Loops {
        count,
        inputs,
        output,
    }))
}

/// One input, with a loop for each dimension of the output.
fn copied(alloc: Global, rank: u32, input: Items<Ids>) -> Result<Option<Loops>, Mem>
    ensures { IfOk result (λ l. l ≡ Some (one_input rank input (identity_map rank))) }
{
    let output = identity(alloc, rank)?;
    let inputs = Items::from_vec(vec![in alloc; input]?);
    Ok(Some(Loops {
        count: rank,
        inputs,
        output,
    }))
}

fn fill(alloc: Global, x: &InsOuts) -> Result<Option<Loops>, Mem>
    requires { output_rank x.now ≤ max_rank }
    ensures { IfOk result (λ l. l ≡ Some (loops_in (copy x.now []))) }
{
    copied(
        alloc,
        first_rank(x.outs_types.as_slice()) as u32,
        Items::new(alloc),
    )
}

fn transpose(alloc: Global, x: &Transpose) -> Result<Option<Loops>, Mem>
    requires input { input_rank x.now.ins_outs ≤ max_rank }
    requires output { output_rank x.now.ins_outs ≤ max_rank }
    requires short { length x.now.permutation ≤ max_rank }
    ensures { IfOk result (λ l. l ≡ Some (loops_in (transpose_structure x.now))) }
{
    let rank = first_rank(x.ins_outs.ins_types.as_slice()) as u32;
    let input = permuted(alloc, rank, x.permutation.as_slice())?;
    copied(
        alloc,
        first_rank(x.ins_outs.outs_types.as_slice()) as u32,
        input,
    )
}

fn broadcast(alloc: Global, x: &Broadcast) -> Result<Option<Loops>, Mem>
    requires { output_rank x.now.ins_outs ≤ max_rank }
    ensures { IfOk result (λ l. l ≡ Some (loops_in (broadcast_structure x.now))) }
{
    let rank = first_rank(x.ins_outs.outs_types.as_slice()) as u32;
    let input = kept(alloc, rank, x.dimensions.as_slice())?;
    copied(alloc, rank, input)
}

/// One input, with a loop for each of its dimensions; the output has those that aren't listed.
fn reduce(alloc: Global, x: &Reduce) -> Result<Option<Loops>, Mem>
    requires { input_rank x.now.ins_outs ≤ max_rank }
    ensures { IfOk result (λ l. l ≡ Some (loops_in (reduce_structure x.now))) }
{
    let rank = first_rank(x.ins_outs.ins_types.as_slice()) as u32;
    let output = kept(alloc, rank, x.dimensions.as_slice())?;
    let input = identity(alloc, rank)?;
    let inputs = Items::from_vec(vec![in alloc; input]?);
    Ok(Some(Loops {
        count: rank,
        inputs,
        output,
    }))
}

/// What the first map sends the loops to; nothing where there is no map.
fn first_results(maps: &[AffineMap]) -> &[u32]
    ensures { result.now ≡ results_of_first maps.now }
{
    match maps.first() {
        Some(first) => first.results.as_slice(),
        None => &[],
    }
}

/// Maps as they are written, so many of them.
fn front_maps(alloc: Global, maps: &[AffineMap], count: usize) -> Result<Items<Items<Ids>>, Mem>
    ensures { IfOk result (λ all. all ≡ map (λ m. single m.results) (take count maps.now)) }
{
    let mut all: Vec<Items<Ids>> = Vec::new(alloc);
    for at in 0..count.min(maps.len()) {
        all.push(single_map(alloc, maps[at].results.as_slice())?)?;
    }
    Ok(Items::from_vec(all))
}

/// The maps behind so many.
fn maps_behind(maps: &[AffineMap], count: usize) -> &[AffineMap]
    ensures { result.now ≡ drop count maps.now }
{
    if count > maps.len() {
        return &[];
    }
    let (_, rest) = maps.split_at(count);
    rest
}

/// The maps as they are written, the output's last.
fn generic(alloc: Global, x: &Generic) -> Result<Option<Loops>, Mem>
    requires { length x.now.iterator_types ≤ max_rank }
    ensures { IfOk result (λ l. l ≡ Some (loops_in (generic_structure x.now))) }
{
    let maps = x.indexing_maps.as_slice();
    let inputs = front_maps(alloc, maps, x.ins_outs.ins_count)?;
    let output = single_map(
        alloc,
        first_results(maps_behind(maps, x.ins_outs.ins_count)),
    )?;
    let count = x.iterator_types.len() as u32;
    Ok(Some(Loops {
        count,
        inputs,
        output,
    }))
}

/// The loops of an operation; none where it isn't structured.
#[tactic(auto, unfolding(sh_ir::specs::Loops::structure_of, crate::specs::Structures::HasFewLoops))]
pub(crate) fn loops_of(alloc: Global, kind: &OpKind) -> Result<Option<Loops>, Mem>
    requires few { HasFewLoops kind.now }
    ensures { IfOk result (λ l. l ≡ option_map loops_in (structure_of kind.now)) }
{
    match kind {
        OpKind::Fill(x) => fill(alloc, x),
        OpKind::Matmul(_) => product(alloc, 3, &[0, 2], &[2, 1], &[0, 1]),
        OpKind::BatchMatmul(_) => product(alloc, 4, &[0, 1, 3], &[0, 3, 2], &[0, 1, 2]),
        OpKind::Matvec(_) => product(alloc, 2, &[0, 1], &[1], &[0]),
        OpKind::Vecmat(_) => product(alloc, 2, &[1], &[1, 0], &[0]),
        OpKind::Dot(_) => product(alloc, 1, &[0], &[0], &[]),
        OpKind::Conv1d(_) => convolution(alloc, 2, &[[0, 1]], &[1], &[0]),
        OpKind::Conv2d(_) => convolution(alloc, 4, &[[0, 2], [1, 3]], &[2, 3], &[0, 1]),
        OpKind::Transpose(x) => transpose(alloc, x),
        OpKind::Broadcast(x) => broadcast(alloc, x),
        OpKind::Reduce(x) => reduce(alloc, x),
        OpKind::Generic(x) => generic(alloc, x),
        _ => Ok(None),
    }
}
