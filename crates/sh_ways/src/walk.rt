ghost use Rattle.std.specs.Prelude.{◌≡◌, ◌≢◌, ◌+◌, ◌<◌, ◌≤◌, ℕ, All, Contains, IfNone, IfOk, IfSome, length, slice_index};
ghost use Rattle.sh_ways.specs.Graph.{IsFirst, ThePlan};
ghost use Rattle.sh_ways.specs.Rows.{AreCosts, AreDists, AreSmall, InRange, IsTightEdge, graph_of, no_number};

use crate::search::{Edge, through};
use std::alloc::{AllocError, Global};

/// The first edge whose cost and the number where it leads are the own number.
fn first_tight<M: Copy>(row: &[Edge<M>], d: &[u64], own: u64) -> Option<Edge<M>>
    requires range { All (λ e. e.to < length d.now) row.now }
    requires small { own < no_number }
    ensures found { IfSome result (IsFirst (IsTightEdge d.now own) row.now) }
    ensures none { IfNone result (All (λ e. IsTightEdge d.now own e → ⊥) row.now) }
{
    for edge in row {
        if through(edge, d) == own {
            return Some(*edge);
        }
    }
    None
}

/// The way that takes at each state the first edge that lies on a least way.
pub fn first_way<M: Copy>(
    alloc: Global,
    rows: &[Vec<Edge<M>>],
    d: &[u64],
    from: usize,
    goal: usize,
) -> Result<Vec<Edge<M>>, AllocError>
    requires range { InRange rows.now }
    requires costs { AreCosts rows.now }
    requires len { length d.now ≡ length rows.now }
    requires small { AreSmall d.now }
    requires dists { AreDists rows.now goal d.now }
    requires from { from < length rows.now }
    ensures plan { IfOk result (λ way. ThePlan (graph_of rows.now) from way.items goal) }
{
    let mut way = Vec::new(alloc);
    let mut at = from;
    while at != goal {
        let edge = first_tight(&rows[at], d, d[at]).unwrap();
        way.push(edge)?;
        at = edge.to;
    }
    Ok(way)
}
