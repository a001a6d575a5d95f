ghost use Rattle.std.specs.Prelude.{◌≡◌, ℕ, ◌<◌, ◌≤◌, true, length, slice_index_or, IfOk, OnOk};
ghost use Rattle.std.specs.List.{All, Contains};
ghost use Rattle.kt_solve.specs.declared.postorder.Progress.TheVariants.{Unseen};
ghost use Rattle.kt_solve.specs.Flow.{IsWithin};
ghost use Rattle.kt_solve.specs.Walks.{is_left, IsListing, IsWalk};

use crate::problem::{NoMemory, Problem};
use crate::steps::Steps;
use std::alloc::{AllocError, Global};
use std::sync::ledger::Ledger;

/// How far a depth-first walk has come at a node.
#[derive(Clone, Copy, Debug)]
enum Progress {
    /// The walk has not come there.
    Unseen,
    /// The node is on the stack.
    Open,
    /// All edges of the node have been followed.
    Left,
}

impl Progress {
    /// Whether all edges of the node have been followed.
    fn is_left(self) -> bool
        ensures { result ≡ is_left self }
    {
        match self {
            Progress::Left => true,
            Progress::Unseen | Progress::Open => false,
        }
    }

    /// Whether the walk has not come to the node.
    fn is_unseen(self) -> bool {
        match self {
            Progress::Unseen => true,
            Progress::Open | Progress::Left => false,
        }
    }
}

/// The link of the last edge of each node.
fn last_links(alloc: Global, p: &Problem) -> Result<Vec<usize>, AllocError>
    ensures len { IfOk result (λ links. length links.items ≡ p.now.nodes) }
    ensures within { IfOk result (λ links. All (λ (link : ℕ). link ≤ length p.now.edges) links.items) }
{
    let mut links = Vec::with_capacity(alloc, p.nodes() as usize)?;
    for node in 0..p.nodes() {
        links.push(p.last_link(node))?;
    }
    Ok(links)
}

/// Walks on from the nodes on the stack, and lists each node as the walk leaves it.
fn walk<L: Ledger>(
    p: &Problem,
    links: &mut [usize],
    progress: &mut [Progress],
    stack: &mut Vec<u32>,
    order: &mut Vec<u32>,
    steps: &mut Steps<L>,
) -> Result<(), NoMemory>
    requires within { IsWithin p.now }
    requires walk { IsWalk p.now links.old progress.old stack.old.items order.old.items }
    ensures { OnOk result (IsWalk p.now links.new progress.new stack.new.items order.new.items) }
{
    while let Some(node) = stack.pop() {
        let at = node as usize;
        if links[at] == 0 {
            order.push(node)?;
            progress[at] = Progress::Left;
        } else {
            let next = p.read(links[at], steps);
            links[at] = next.before;
            stack.push(node)?;
            let to = next.edge.to;
            if progress[to as usize].is_unseen() {
                progress[to as usize] = Progress::Open;
                stack.push(to)?;
            }
        }
    }
    Ok(())
}

/// Lists the nodes that the walk has not left.
fn list_others(progress: &[Progress], order: &mut Vec<u32>) -> Result<(), NoMemory>
    requires small { length progress.now < 4294967296 }
    requires within { All (λ (n : ℕ). n < length progress.now) order.old.items }
    requires listed { (n : ℕ) → n < length progress.now → is_left (slice_index_or progress.now n Unseen) ≡ true → Contains order.old.items n }
    ensures { OnOk result (IsListing (length progress.now) order.new.items) }
{
    for node in 0..progress.len() {
        if !progress[node].is_left() {
            order.push(node as u32)?;
        }
    }
    Ok(())
}

/// Every node, first those that the entry reaches, in the reverse of the order in which a depth-first walk leaves
/// them. In this order a node mostly stands behind those from which edges lead to it.
pub(crate) fn reverse_postorder<L: Ledger>(
    alloc: Global,
    p: &Problem,
    steps: &mut Steps<L>,
) -> Result<Vec<u32>, NoMemory>
    requires { IsWithin p.now }
    ensures { IfOk result (λ order. IsListing p.now.nodes order.items) }
{
    let nodes = p.nodes() as usize;
    let mut links = last_links(alloc, p)?;
    let mut progress = vec![in alloc; Progress::Unseen; nodes]?;
    let mut order = Vec::with_capacity(alloc, nodes)?;
    let mut stack = vec![in alloc; p.entry()]?;
    progress[p.entry() as usize] = Progress::Open;
    walk(p, &mut links, &mut progress, &mut stack, &mut order, steps)?;
    list_others(&progress, &mut order)?;
    order.reverse();
    Ok(order)
}
