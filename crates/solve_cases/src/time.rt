ghost use Rattle.std.specs.Prelude.{◌≤◌, ◌<◌, length};
ghost use Rattle.kt_solve.specs.Orders.{CanSolveOnce};

use crate::compare::solve_in_order;
use crate::given::{Fault, Given};
use kt_solve::{Problem, Rows, can_solve_once, solve};
use std::time::CpuClock;

/// How many nodes are reached, and how many pairs hold at them.
fn held(rows: &Rows, nodes: u32, pairs: u32) -> (u32, u64)
    requires nodes { nodes ≤ length rows.now.reached }
    requires pairs { pairs ≤ rows.now.pairs }
{
    let mut reached = 0u32;
    let mut held = 0u64;
    for node in 0..nodes {
        reached = reached.saturating_add(u32::from(rows.reached(node)));
        held = held.saturating_add(held_at(rows, node, pairs));
    }
    (reached, held)
}

fn held_at(rows: &Rows, node: u32, pairs: u32) -> u64
    requires node { node < length rows.now.reached }
    requires pairs { pairs ≤ rows.now.pairs }
{
    let mut held = 0u64;
    for pair in 0..pairs {
        held = held.saturating_add(u64::from(rows.holds(node, pair)));
    }
    held
}

/// The processor time of `solve` in nanoseconds.
fn time_solve(rt: &HostRuntime, p: &Problem) -> Result<u128, Fault> {
    let start = rt.thread_cpu_time()?;
    let _rows = solve(rt.alloc(), p)?;
    let end = rt.thread_cpu_time()?;
    Ok(end.saturating_sub(start).as_nanos())
}

/// The processor time of `solve_once` in nanoseconds.
fn time_once(rt: &HostRuntime, p: &Problem, order: &[u32]) -> Result<u128, Fault>
    requires { CanSolveOnce p.now order.now }
{
    let start = rt.thread_cpu_time()?;
    let _rows = solve_in_order(rt.alloc(), p, order)?;
    let end = rt.thread_cpu_time()?;
    Ok(end.saturating_sub(start).as_nanos())
}

/// The least time of `solve` over some rounds.
fn least_solve(rt: &HostRuntime, p: &Problem, rounds: u32) -> Result<u128, Fault> {
    let mut least = u128::MAX;
    for _ in 0..rounds {
        least = least.min(time_solve(rt, p)?);
    }
    Ok(least)
}

/// The least time of `solve_once` over some rounds, None where the order of the graph is not one for it.
fn least_once(
    rt: &HostRuntime,
    given: &Given,
    p: &Problem,
    rounds: u32,
) -> Result<Option<u128>, Fault> {
    let alloc = rt.alloc();
    let order = given.order(alloc)?;
    if !can_solve_once(alloc, p, &order)? {
        return Ok(None);
    }
    let mut least = u128::MAX;
    for _ in 0..rounds {
        least = least.min(time_once(rt, p, &order)?);
    }
    Ok(Some(least))
}

/// The least processor time of `solve` and of `solve_once` on a graph, in nanoseconds, and what holds in the rows.
pub fn time(rt: &HostRuntime, given: &Given, rounds: u32) -> Result<String, Fault> {
    let alloc = rt.alloc();
    let p = given.problem(alloc)?;
    let name = given.name.as_str();
    let took = least_solve(rt, &p, rounds)?;
    let once = least_once(rt, given, &p, rounds)?;
    let rows = solve(alloc, &p)?;
    let (reached, held) = held(&rows, given.nodes, given.pairs);
    match once {
        Some(once) => Ok(format!(in alloc;
            "{name}: solve {took} solve_once {once} reached {reached} held {held}"
        )?),
        None => Ok(format!(in alloc;
            "{name}: solve {took} solve_once - reached {reached} held {held}"
        )?),
    }
}
