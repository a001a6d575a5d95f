ghost use Rattle.std.specs.Prelude.{◌≡◌, ◌<◌, ◌≤◌, length};

use crate::given::{Fault, Given};
use kt_solve::{Effect, Rows, Transfer};
use std::alloc::Global;

/// A node that some path ends at, and the pairs that are set there along it, a bit each, after the node's effects.
#[derive(Clone, Copy, Debug, PartialEq, Eq)]
pub struct Ending {
    pub node: u32,
    pub set: u64,
}

/// Whether a pair is among those set. The states of paths are found for graphs of at most 64 pairs.
pub fn is_set(set: u64, pair: u32) -> bool {
    pair < 64 && (set >> pair) & 1 == 1
}

fn put(set: u64, pair: u32, value: bool) -> u64 {
    if pair >= 64 {
        set
    } else if value {
        set | (1 << pair)
    } else {
        set & !(1 << pair)
    }
}

/// What an effect does to the pairs of its range.
fn apply(effect: &Effect, before: u64, after: u64) -> u64 {
    let mut after = after;
    for place in 0..effect.count.min(64) {
        let pair = effect.first.saturating_add(place);
        let value = match effect.transfer {
            Transfer::Keep => is_set(before, pair),
            Transfer::Set => true,
            Transfer::Clear => false,
            Transfer::CopyFrom(source) => is_set(before, source.saturating_add(place)),
        };
        after = put(after, pair, value);
    }
    after
}

/// The pairs that are set after a node's effects.
fn after(given: &Given, node: u32, before: u64) -> u64 {
    let mut after = before;
    for effect in &given.effects {
        if effect.node == node {
            after = apply(effect, before, after);
        }
    }
    after
}

/// Takes the paths of an ending along one more edge.
fn extend(given: &Given, ending: Ending, endings: &mut Vec<Ending>) -> Result<(), Fault> {
    for edge in &given.edges {
        if edge.from == ending.node {
            let node = edge.to;
            let next = Ending {
                node,
                set: after(given, node, ending.set),
            };
            if !endings.contains(&next) {
                endings.push(next)?;
            }
        }
    }
    Ok(())
}

/// How all paths from the entry end.
pub fn endings(alloc: Global, given: &Given) -> Result<Vec<Ending>, Fault> {
    let node = given.entry;
    let mut endings = Vec::new(alloc);
    endings.push(Ending {
        node,
        set: after(given, node, 0),
    })?;
    for at in 0..usize::MAX {
        let Some(ending) = endings.get(at).copied() else {
            break;
        };
        extend(given, ending, &mut endings)?;
    }
    Ok(endings)
}

/// Whether some path ends at the node.
fn is_reached(endings: &[Ending], node: u32) -> bool {
    endings.iter().any(|ending| ending.node == node)
}

/// Whether a pair is set along every path that ends at the node.
fn holds(endings: &[Ending], node: u32, pair: u32) -> bool {
    endings
        .iter()
        .all(|ending| ending.node != node || is_set(ending.set, pair))
}

/// Whether the rows say of a node what its paths do.
fn agrees_at(endings: &[Ending], rows: &Rows, node: u32, pairs: u32) -> bool
    requires node { node < length rows.now.reached }
    requires pairs { pairs ≤ rows.now.pairs }
{
    let reached = is_reached(endings, node);
    for pair in 0..pairs {
        if rows.holds(node, pair) != (reached && holds(endings, node, pair)) {
            return false;
        }
    }
    rows.reached(node) == reached
}

/// Whether the rows say of each node what its paths do.
pub fn agree(endings: &[Ending], rows: &Rows, nodes: u32, pairs: u32) -> bool
    requires nodes { nodes ≤ length rows.now.reached }
    requires pairs { pairs ≤ rows.now.pairs }
{
    for node in 0..nodes {
        if !agrees_at(endings, rows, node, pairs) {
            return false;
        }
    }
    true
}
