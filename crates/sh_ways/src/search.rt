ghost use Rattle.std.specs.Prelude.{◌≡◌, ◌+◌, ◌<◌, ◌≤◌, ◌^◌, ◌⊎◌, ℕ, All, Contains, IfOk, length, slice_index, sum, true, false, vec_len};
ghost use Rattle.sh_ways.specs.Rows.{AllBelow, AllReach, AreDists, AreSmall, AreWays, InRange, IsBelow, IsByEdge, no_number};

use std::alloc::{AllocError, Global};

/// A move in a graph of numbered states.
#[derive(Clone, Copy)]
pub struct Edge<M> {
    /// The move.
    pub by: M,
    /// What it costs.
    pub cost: u64,
    /// The number of the state where it leads.
    pub to: usize,
}

/// What a way that begins with this edge costs, by the numbers; `u64::MAX` where that is more.
pub(crate) fn through<M>(edge: &Edge<M>, d: &[u64]) -> u64
    requires { edge.now.to < length d.now }
    ensures below { result ≤ edge.now.cost + slice_index d.now edge.now.to }
    ensures exact { result < no_number → result ≡ edge.now.cost + slice_index d.now edge.now.to }
{
    edge.cost.saturating_add(d[edge.to])
}

/// The least of the own number and, for each edge, its cost and the number where it leads.
fn improved<M>(row: &[Edge<M>], d: &[u64], own: u64) -> u64
    requires { All (λ e. e.to < length d.now) row.now }
    ensures least { result ≤ own }
    ensures below { All (λ e. IsBelow d.now result e) row.now }
    ensures made { result < own → IsByEdge d.now row.now result }
{
    let mut least = own;
    for edge in row {
        let by = through(edge, d);
        if by < least {
            least = by;
        }
    }
    least
}

/// Improves each number in turn by its edges. It answers whether some number fell.
fn pass<M>(rows: &[Vec<Edge<M>>], d: &mut [u64]) -> bool
    requires same { length d.old ≡ length rows.now }
    requires range { InRange rows.now }
    ensures same { length d.new ≡ length rows.now }
    ensures sums { sum d.new ≤ sum d.old }
    ensures fell { result ≡ true → sum d.new < sum d.old }
    ensures stays { result ≡ false → AllBelow rows.now d.new }
    ensures ways { (goal : ℕ) → AreWays rows.now goal d.old → AreWays rows.now goal d.new }
    ensures least { (i : ℕ) → slice_index d.new i ≤ slice_index d.old i }
{
    let mut fell = false;
    for (i, row) in rows.iter().enumerate() {
        let own = d[i];
        let new = improved(row, d, own);
        if new < own {
            d[i] = new;
            fell = true;
        }
    }
    fell
}

/// Improves the numbers until none falls. A pass in which none fell shows that no edge undercuts one.
fn settle<M>(rows: &[Vec<Edge<M>>], goal: usize, d: &mut [u64])
    requires range { InRange rows.now }
    requires same { length d.old ≡ length rows.now }
    requires ways { AreWays rows.now goal d.old }
    requires zero_at { slice_index d.old goal ≡ 0 }
    ensures same { length d.new ≡ length rows.now }
    ensures ways { AreWays rows.now goal d.new }
    ensures zero_at { slice_index d.new goal ≡ 0 }
    ensures below { AllBelow rows.now d.new }
{
    let mut fell = true;
    while fell {
        fell = pass(rows, d);
    }
}

/// The distance of each state to the goal: the least cost of a list of edges that lead there.
pub fn distances<M>(
    alloc: Global,
    rows: &[Vec<Edge<M>>],
    goal: usize,
) -> Result<Vec<u64>, AllocError>
    requires goal { goal < length rows.now }
    requires range { InRange rows.now }
    requires reach { AllReach rows.now goal }
    ensures len { IfOk result (λ d. length d.items ≡ length rows.now) }
    ensures small { IfOk result (λ d. AreSmall d.items) }
    ensures dists { IfOk result (λ d. AreDists rows.now goal d.items) }
{
    let mut d = vec![in alloc; u64::MAX; rows.len()]?;
    d[goal] = 0;
    settle(rows, goal, &mut d);
    Ok(d)
}
