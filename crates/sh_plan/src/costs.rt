ghost use Rattle.std.specs.Prelude.{◌≡◌, ◌+◌, ◌<◌, ◌≤◌, length};
ghost use Rattle.sh_base.specs.Shape.{cell_count, max_cells};
ghost use Rattle.sh_sharding.specs.Sharding.{size_of, start_of, whole_of};
ghost use Rattle.sh_plan.specs.Costs.{common_along, cost_from, received_from};

use sh_grid::devices;
use sh_sharding::{Sharding, dimension, grid, rank, size, start, whole};

/// Where a device's part ends along a dimension.
fn end(s: &Sharding, dim: u64, device: u64) -> u64
    requires dim { dim < length s.now.dimensions }
    requires device { device < cell_count s.now.grid.extents }
    ensures { result ≡ start_of s.now dim device + size_of s.now dim device }
{
    // For what admission says: the part ends in the dimension, which is no longer than a tensor.
    let (_admitted, _dimension) = (whole(s), dimension(s, dim));
    start(s, grid(s), dim, device) + size(s, grid(s), dim, device)
}

/// How many entries along a dimension lie in a device's part before and afterwards.
fn common(before: &Sharding, after: &Sharding, dim: u64, device: u64) -> u64
    requires grid { before.now.grid ≡ after.now.grid }
    requires before { dim < length before.now.dimensions }
    requires after { dim < length after.now.dimensions }
    requires device { device < cell_count before.now.grid.extents }
    ensures { result ≡ common_along before.now after.now dim device }
{
    let first = start(before, grid(before), dim, device);
    let other = start(after, grid(after), dim, device);
    let begins = first.max(other);
    let ends = end(before, dim, device).min(end(after, dim, device));
    ends.saturating_sub(begins)
}

/// How many indices are in a device's part afterwards that weren't in its part before.
fn received_by(before: &Sharding, after: &Sharding, device: u64) -> u64
    requires grid { before.now.grid ≡ after.now.grid }
    requires rank { length before.now.dimensions ≡ length after.now.dimensions }
    requires device { device < cell_count before.now.grid.extents }
    ensures value { result ≡ received_from before.now after.now device }
    ensures within { result ≤ max_cells }
{
    let _admitted = whole(after);
    let (mut held, mut had) = (1, 1);
    for dim in 0..rank(after) {
        let long = size(after, grid(after), dim, device);
        let shared = common(before, after, dim, device);
        held *= long;
        had *= shared;
    }
    held - had
}

/// What a move costs that leads from one sharding to the other: 1, and for each device the number
/// of indices in its part afterwards that weren't in its part before. Halos don't count. It takes
/// no memory.
pub fn cost(before: &Sharding, after: &Sharding) -> u64
    requires grid { before.now.grid ≡ after.now.grid }
    requires whole { whole_of before.now ≡ whole_of after.now }
    ensures { result ≡ cost_from before.now after.now }
{
    let mut cost = 1;
    for device in 0..devices(grid(before)) {
        cost += received_by(before, after, device);
    }
    cost
}
