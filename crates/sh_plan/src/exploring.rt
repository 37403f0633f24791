ghost use Rattle.std.specs.Prelude.{◌≡◌, ◌<◌, All, IfOk, OnOk, length, true};
ghost use Rattle.sh_ways.specs.Rows.{IsEdgeOf};
ghost use Rattle.sh_plan.specs.Costs.{held_by};
ghost use Rattle.sh_plan.specs.Moves.{IsNamedAt, may_be};
ghost use Rattle.sh_plan.specs.States.{AreEdges, AreStates, IsExplored, IsNumber, IsRowOf, IsStateTo, KeepNumbers, keys_in, towards};

use crate::apart::code;
use crate::prices::{held, move_cost};
use crate::{Move, allowed_moves, moved};
use indexmap::IndexSet;
use sh_base::{Duplicate, Items, Mem};
use sh_sharding::Sharding;
use sh_ways::Edge;
use std::alloc::Global;

/// States in the order in which they were met, each once.
#[derive(Drop)]
pub struct States {
    /// What tells each apart.
    pub codes: IndexSet<Items<u64>>,
    /// The states.
    pub known: Vec<Sharding>,
}

/// The number of a state, which is the next one where it is new.
fn number(alloc: Global, states: &mut States, to: &Sharding, s: Sharding) -> Result<usize, Mem>
    requires states { AreStates to.now states.old }
    requires state { IsStateTo to.now s }
    ensures states { OnOk result (AreStates to.now states.new) }
    ensures keeps { OnOk result (KeepNumbers states.old states.new) }
    ensures named { IfOk result (IsNumber (keys_in states.new) s.dimensions) }
{
    let code = code(alloc, &s)?;
    let (n, is_new) = states.codes.insert_full(code)?;
    if is_new {
        states.known.push(s)?;
    }
    Ok(n)
}

/// The edge of a move from a state, whose parts hold so many cells.
fn edge_of(
    alloc: Global,
    states: &mut States,
    to: &Sharding,
    s: &Sharding,
    cells: u64,
    m: Move,
) -> Result<Edge<Move>, Mem>
    requires states { AreStates to.now states.old }
    requires target { IsStateTo to.now to.now }
    requires state { IsStateTo to.now s.now }
    requires cells { cells ≡ held_by s.now }
    requires named { IsNamedAt s.now m }
    requires may { may_be s.now to.now m ≡ true }
    ensures states { OnOk result (AreStates to.now states.new) }
    ensures keeps { OnOk result (KeepNumbers states.old states.new) }
    ensures edge { IfOk result
        (λ e. IsEdgeOf (towards to.now) (keys_in states.new) s.now.dimensions e m) }
{
    let next = moved(alloc, s, to, m)?;
    let cost = move_cost(s, &next, m, cells);
    let place = number(alloc, states, to, next)?;
    Ok(Edge {
        by: m,
        cost,
        to: place,
    })
}

/// The edges of some moves of a state, whose parts hold so many cells.
fn edges_of(
    alloc: Global,
    states: &mut States,
    to: &Sharding,
    s: &Sharding,
    cells: u64,
    moves: &[Move],
) -> Result<Vec<Edge<Move>>, Mem>
    requires states { AreStates to.now states.old }
    requires target { IsStateTo to.now to.now }
    requires state { IsStateTo to.now s.now }
    requires cells { cells ≡ held_by s.now }
    requires named { All (IsNamedAt s.now) moves.now }
    requires may { All (λ m. may_be s.now to.now m ≡ true) moves.now }
    ensures states { OnOk result (AreStates to.now states.new) }
    ensures keeps { OnOk result (KeepNumbers states.old states.new) }
    ensures edges { IfOk result (λ row.
        AreEdges to.now (keys_in states.new) s.now.dimensions row.items moves.now) }
{
    let mut row = Vec::new(alloc);
    for m in moves {
        let edge = edge_of(alloc, states, to, s, cells, *m)?;
        row.push(edge)?;
    }
    Ok(row)
}

/// The edges of the state with this number.
fn row_of(
    alloc: Global,
    states: &mut States,
    to: &Sharding,
    at: usize,
) -> Result<Vec<Edge<Move>>, Mem>
    requires states { AreStates to.now states.old }
    requires target { IsStateTo to.now to.now }
    requires at { at < length states.old.known.items }
    ensures states { OnOk result (AreStates to.now states.new) }
    ensures keeps { OnOk result (KeepNumbers states.old states.new) }
    ensures row { IfOk result
        (λ row. IsRowOf to.now (keys_in states.old) (keys_in states.new) at row.items) }
{
    let s = states.known[at].duplicate(alloc)?;
    let moves = allowed_moves(alloc, &s, to)?;
    edges_of(alloc, states, to, &s, held(&s), moves.as_slice())
}

/// States and their edges, the source and the target among them.
#[derive(Drop)]
pub struct Explored {
    /// The states.
    pub states: Vec<Sharding>,
    /// The edges of each, by the moves that may be made there.
    pub rows: Vec<Vec<Edge<Move>>>,
    /// The number of the source.
    pub start: usize,
    /// The number of the target.
    pub goal: usize,
}

/// The states that moves reach from a source and a target without halos.
pub(crate) fn reached(alloc: Global, from: &Sharding, to: &Sharding) -> Result<Explored, Mem>
    requires source { IsStateTo to.now from.now }
    requires target { IsStateTo to.now to.now }
    ensures { IfOk result (IsExplored from.now to.now) }
{
    let mut states = States {
        codes: IndexSet::new(alloc),
        known: Vec::new(alloc),
    };
    let start = number(alloc, &mut states, to, from.duplicate(alloc)?)?;
    let goal = number(alloc, &mut states, to, to.duplicate(alloc)?)?;
    let mut rows = Vec::new(alloc);
    'reached: while rows.len() < states.known.len() {
        let row = row_of(alloc, &mut states, to, rows.len())?;
        rows.push(row)?;
    }
    Ok(Explored {
        states: states.known,
        rows,
        start,
        goal,
    })
}
