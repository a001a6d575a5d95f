ghost use Rattle.std.specs.Prelude.{◌<◌, ◌≤◌, length};

use crate::compare::{Comparison, compare, solve_given};
use crate::given::{Fault, Given};
use kt_solve::Rows;
use std::alloc::{AllocError, Global};

/// How a comparison ended.
fn outcome(answer: Option<bool>) -> &'static str {
    match answer {
        Some(true) => "the same",
        Some(false) => "other rows",
        None => "not compared",
    }
}

/// The pairs that hold at a node, each run of them by its first and last.
fn row(alloc: Global, rows: &Rows, node: u32, pairs: u32) -> Result<String, AllocError>
    requires node { node < length rows.now.reached }
    requires pairs { pairs ≤ rows.now.pairs }
{
    let mut text = String::new(alloc);
    for pair in 0..pairs {
        let is_first = pair == 0 || !rows.holds(node, pair - 1);
        let is_last = pair + 1 == pairs || !rows.holds(node, pair + 1);
        if rows.holds(node, pair) && is_first {
            text.push_str(format!(in alloc; " {pair}")?.as_str())?;
        }
        if rows.holds(node, pair) && is_last && !is_first {
            text.push_str(format!(in alloc; "-{pair}")?.as_str())?;
        }
    }
    Ok(text)
}

/// The line of a node.
fn node_line(alloc: Global, rows: &Rows, node: u32, pairs: u32) -> Result<String, AllocError>
    requires node { node < length rows.now.reached }
    requires pairs { pairs ≤ rows.now.pairs }
{
    if rows.reached(node) {
        let row = row(alloc, rows, node, pairs)?;
        format!(in alloc; "\n  {node}:{row}")
    } else {
        format!(in alloc; "\n  {node}: unreached")
    }
}

/// The rows of a graph, and what they were compared with.
pub fn rows(alloc: Global, given: &Given) -> Result<String, Fault> {
    let (p, rows) = solve_given(alloc, given)?;
    let mut text = format!(in alloc;
        "{}: {} nodes, {} pairs",
        given.name, given.nodes, given.pairs
    )?;
    for node in 0..given.nodes {
        text.push_str(node_line(alloc, &rows, node, given.pairs)?.as_str())?;
    }
    let comparison = compare(alloc, given, &p, &rows)?;
    let last = format!(in alloc;
        "\n  solve_once: {}; paths: {}",
        outcome(comparison.once),
        outcome(comparison.paths)
    )?;
    text.push_str(last.as_str())?;
    Ok(text)
}
