use crate::moved::after;
use crate::pairs::match_up;
use crate::{Pair, read_state, states};
use sh_base::Duplicate;
use sh_plan::{Distances, Move, Moves, Plan, allowed_moves, cost, plan};
use sh_sharding::{Sharding, grid, same};
use std::alloc::Global;
use std::process::Abort;
use std::test::Fail;

/// The longest lists of moves that are tried.
const LONGEST: usize = 4;

/// Each line a state; between each two of those that moves reach from there a plan is compared with
/// all lists of moves. Then how many pairs there are.
const REACHED: &str = "\
2 | 4 | 0 | | ; 4
2 | 5 | 0 | | ; 4
3 | 7 | 0 | | ; 4
2 | 4 6 | 0 | | ; 9
2 | 4 5 | - / 0 | | ; 9
2 | 4 4 | - / 0 | | 0 1 4 ; 16
3 | 6 3 | 0 | | ; 9
3 | 6 4 | - / 0 | | ; 9
2 2 | 8 | 0 1 | | ; 25
2 2 | 6 | 0 1 | | ; 16
2 2 | 4 8 | 0 1 | | ; 121
2 2 | 4 5 | - / 0 1 | | ; 36";

/// Where a list of moves leads to, and what it costs.
#[derive(Drop)]
struct Reached {
    state: Sharding,
    cost: u64,
}

/// What a move leads to and costs.
fn made(alloc: Global, from: &Sharding, to: &Sharding, m: Move) -> Result<Reached, Fail> {
    let pair = states(alloc, from, to)?;
    let state = after(alloc, &pair.from, &pair.to, m)?;
    match_up(&pair.from, &state)?;
    let cost = cost(&pair.from, &state);
    Ok(Reached { state, cost })
}

/// The moves that may be made.
fn moves_between(alloc: Global, from: &Sharding, to: &Sharding) -> Result<Moves, Fail> {
    let pair = states(alloc, from, to)?;
    Ok(allowed_moves(alloc, &pair.from, &pair.to)?)
}

/// Appends a list with each move more.
fn push_longer(
    alloc: Global,
    longer: &mut Vec<Reached>,
    way: &Reached,
    to: &Sharding,
) -> Result<(), Fail> {
    let moves = moves_between(alloc, &way.state, to)?;
    for m in moves.as_slice() {
        let next = made(alloc, &way.state, to, *m)?;
        let cost = way.cost.checked_add(next.cost).ok_or("too much")?;
        longer.push(Reached {
            state: next.state,
            cost,
        })?;
    }
    Ok(())
}

/// All lists with one move more.
fn longer(alloc: Global, ways: &[Reached], to: &Sharding) -> Result<Vec<Reached>, Fail> {
    let mut all = Vec::new(alloc);
    for way in ways {
        push_longer(alloc, &mut all, way, to)?;
    }
    Ok(all)
}

/// The less of two costs, where there are any.
fn less(a: Option<u64>, b: u64) -> Option<u64> {
    match a {
        Some(a) => Some(a.min(b)),
        None => Some(b),
    }
}

/// The least cost of those lists that lead to a target, and of one more.
fn least_of(ways: &[Reached], to: &Sharding, known: Option<u64>) -> Option<u64> {
    let mut least = known;
    for way in ways {
        if same(&way.state, to) {
            least = less(least, way.cost);
        }
    }
    least
}

/// What the lists of at most so many moves cost least that lead to a target; none where none does.
fn least(alloc: Global, from: &Sharding, to: &Sharding, most: usize) -> Result<Option<u64>, Fail> {
    let mut ways = Vec::new(alloc);
    ways.push(Reached {
        state: from.duplicate(alloc)?,
        cost: 0,
    })?;
    let mut least = least_of(&ways, to, None);
    for _ in 0..most {
        ways = longer(alloc, &ways, to)?;
        least = least_of(&ways, to, least);
    }
    Ok(least)
}

/// Whether a move lies on a least list of at most so many moves, which costs so much.
fn is_on_least(
    alloc: Global,
    next: &Reached,
    to: &Sharding,
    most: usize,
    whole: u64,
) -> Result<bool, Fail> {
    Ok(match least(alloc, &next.state, to, most)? {
        Some(rest) => rest.checked_add(next.cost) == Some(whole),
        None => false,
    })
}

/// The first move that lies on a least list of at most so many moves.
fn first_move(
    alloc: Global,
    from: &Sharding,
    to: &Sharding,
    most: usize,
) -> Result<Option<Move>, Fail> {
    let whole = least(alloc, from, to, most)?.ok_or("no list leads there")?;
    let moves = moves_between(alloc, from, to)?;
    for m in moves.as_slice() {
        let next = made(alloc, from, to, *m)?;
        if is_on_least(alloc, &next, to, most.saturating_sub(1), whole)? {
            return Ok(Some(*m));
        }
    }
    Ok(None)
}

/// Whether moves lead to a target, each the first that lies on a least list.
fn are_first(alloc: Global, from: &Sharding, to: &Sharding, moves: &[Move]) -> Result<bool, Fail> {
    let mut at = from.duplicate(alloc)?;
    let mut most = LONGEST;
    for m in moves {
        if most == 0 || first_move(alloc, &at, to, most)? != Some(*m) {
            return Ok(false);
        }
        at = made(alloc, &at, to, *m)?.state;
        most -= 1;
    }
    Ok(same(&at, to))
}

/// The plan between two states.
fn plan_between(alloc: Global, from: &Sharding, to: &Sharding) -> Result<Plan, Fail> {
    let Pair { from, to } = states(alloc, from, to)?;
    Ok(plan(alloc, grid(&from), &from, &to)?)
}

/// Whether a plan costs as little as the lists of moves, and has the first of them.
fn is_least(alloc: Global, from: &Sharding, to: &Sharding) -> Result<bool, Fail> {
    let found = plan_between(alloc, from, to)?;
    Ok(
        least(alloc, from, to, LONGEST)? == Some(found.cost)
            && are_first(alloc, from, to, found.moves.as_slice())?,
    )
}

/// The states that moves reach from one.
fn reached_from(alloc: Global, line: &str) -> Result<Distances, Fail> {
    let from = read_state(alloc, line)?;
    Ok(plan_between(alloc, &from, &from)?.table)
}

/// How many plans to one state are as all lists of moves say.
fn least_to(alloc: Global, all: &Distances, to: &Sharding) -> Result<usize, Fail> {
    let mut count = 0usize;
    for from in all.as_slice() {
        if is_least(alloc, &from.sharding, to)? {
            count = count.checked_add(1).ok_or("too many")?;
        }
    }
    Ok(count)
}

/// How many plans between the states that moves reach from one are as all lists of moves say.
fn least_from(alloc: Global, line: &str) -> Result<usize, Fail> {
    let all = reached_from(alloc, line)?;
    let mut count = 0usize;
    for to in all.as_slice() {
        let more = least_to(alloc, &all, &to.sharding)?;
        count = count.checked_add(more).ok_or("too many")?;
    }
    Ok(count)
}

fn assert_least(rt: &impl Abort, alloc: Global, row: &str) -> Result<(), Fail> {
    let (from, pairs) = row.split_once(';').ok_or("no count")?;
    let want = pairs.trim().parse::<usize>().ok().ok_or("no number")?;
    assert_eq!(rt; least_from(alloc, from)?, want, "{row}");
    Ok(())
}

#[test]
fn plans_as_all_lists_of_moves_say(rt: HostRuntime) -> Result<(), Fail> {
    let alloc = rt.alloc();
    for row in REACHED.lines() {
        assert_least(&rt, alloc, row)?;
    }
    Ok(())
}
