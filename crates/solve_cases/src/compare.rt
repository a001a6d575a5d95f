ghost use Rattle.std.specs.Prelude.{◌≡◌, ◌≤◌, ◌<◌, length, IfOk};
ghost use Rattle.kt_solve.specs.Orders.{CanSolveOnce};

use crate::given::{Fault, Given};
use crate::paths;
use kt_solve::{Problem, Rows, Steps, can_solve_once, solve, solve_once};
use std::alloc::Global;
use std::marker::Brand;
use std::sync::ledger::{Blank, Ledger};

/// What the rows of a graph were compared with.
#[derive(Clone, Copy, Debug)]
pub struct Comparison {
    /// Whether the rows of `solve_once` are the same; None where the order is not one for it.
    pub once: Option<bool>,
    /// Whether the states along every path tell the same; None where there are too many pairs for that.
    pub paths: Option<bool>,
}

/// Solves a problem in an order.
fn solve_counted<L: Ledger>(
    alloc: Global,
    p: &Problem,
    order: &[u32],
    blank: Blank,
) -> Result<Rows, Fault>
    requires name { blank.name ≡ L.name }
    requires parts { blank.parts ≡ L.parts }
    requires some { 0 < blank.parts }
    requires order { CanSolveOnce p.now order.now }
    ensures { IfOk result (λ rows. (length rows.reached ≡ p.now.nodes) × (rows.pairs ≡ p.now.pairs)) }
{
    let mut steps = Steps::<L>::new(blank);
    let rows = solve_once(alloc, p, order, &mut steps)?;
    Ok(rows)
}

/// Solves a problem in an order.
pub fn solve_in_order(alloc: Global, p: &Problem, order: &[u32]) -> Result<Rows, Fault>
    requires { CanSolveOnce p.now order.now }
    ensures { IfOk result (λ rows. (length rows.reached ≡ p.now.nodes) × (rows.pairs ≡ p.now.pairs)) }
{
    solve_counted::<Brand>(alloc, p, order, Blank::new(1))
}

/// Whether `solve_once` gives the same rows in the order of the graph, None where that is not one for it.
fn compare_once(
    alloc: Global,
    given: &Given,
    p: &Problem,
    rows: &Rows,
) -> Result<Option<bool>, Fault>
    requires nodes { p.now.nodes ≡ given.now.nodes }
    requires pairs { p.now.pairs ≡ given.now.pairs }
    requires rows { length rows.now.reached ≡ given.now.nodes }
    requires rows_pairs { rows.now.pairs ≡ given.now.pairs }
{
    let order = given.order(alloc)?;
    if !can_solve_once(alloc, p, &order)? {
        return Ok(None);
    }
    let other = solve_in_order(alloc, p, &order)?;
    Ok(Some(is_same(rows, &other, given.nodes, given.pairs)))
}

/// Whether two tables have the same row of a node.
fn is_same_row(one: &Rows, other: &Rows, node: u32, pairs: u32) -> bool
    requires one { node < length one.now.reached }
    requires other { node < length other.now.reached }
    requires one_pairs { pairs ≤ one.now.pairs }
    requires other_pairs { pairs ≤ other.now.pairs }
{
    for pair in 0..pairs {
        if one.holds(node, pair) != other.holds(node, pair) {
            return false;
        }
    }
    one.reached(node) == other.reached(node)
}

/// Whether two tables have the same rows.
fn is_same(one: &Rows, other: &Rows, nodes: u32, pairs: u32) -> bool
    requires one { nodes ≤ length one.now.reached }
    requires other { nodes ≤ length other.now.reached }
    requires one_pairs { pairs ≤ one.now.pairs }
    requires other_pairs { pairs ≤ other.now.pairs }
{
    for node in 0..nodes {
        if !is_same_row(one, other, node, pairs) {
            return false;
        }
    }
    true
}

/// Whether the states along every path tell the same as the rows.
fn compare_paths(alloc: Global, given: &Given, rows: &Rows) -> Result<Option<bool>, Fault>
    requires nodes { given.now.nodes ≤ length rows.now.reached }
    requires pairs { given.now.pairs ≤ rows.now.pairs }
{
    if given.pairs > 64 {
        return Ok(None);
    }
    let endings = paths::endings(alloc, given)?;
    Ok(Some(paths::agree(&endings, rows, given.nodes, given.pairs)))
}

/// Compares the rows of a graph with those of `solve_once`, and with the states along every path.
pub fn compare(alloc: Global, given: &Given, p: &Problem, rows: &Rows) -> Result<Comparison, Fault>
    requires nodes { p.now.nodes ≡ given.now.nodes }
    requires pairs { p.now.pairs ≡ given.now.pairs }
    requires rows { length rows.now.reached ≡ given.now.nodes }
    requires rows_pairs { rows.now.pairs ≡ given.now.pairs }
{
    let once = compare_once(alloc, given, p, rows)?;
    let paths = compare_paths(alloc, given, rows)?;
    Ok(Comparison { once, paths })
}

/// Solves a graph.
pub fn solve_given(alloc: Global, given: &Given) -> Result<(Problem, Rows), Fault>
    ensures { IfOk result (λ answer. (answer.0.nodes ≡ given.now.nodes) × (answer.0.pairs ≡ given.now.pairs) × (length answer.1.reached ≡ given.now.nodes) × (answer.1.pairs ≡ given.now.pairs)) }
{
    let p = given.problem(alloc)?;
    let rows = solve(alloc, &p)?;
    Ok((p, rows))
}
