ghost use Rattle.std.specs.Prelude.{◌≡◌, OnOk, [], true};
ghost use Rattle.kt_model.specs.DeadTrees.{is_begin};
ghost use Rattle.kt_init.specs.Marks.{dead_by, marked};

use indexmap::IndexSet;
use kt_model::graph::{NodeRow, Tag};
use kt_tree::NoMemory;
use std::alloc::Global;

/// Which trees have a node that begins them, and which of these is reached.
#[derive(Drop)]
pub(crate) struct Marks {
    begun: IndexSet<u32>,
    entered: IndexSet<u32>,
}

/// Whether a node with this tag begins a tree.
fn is_begin(tag: Tag) -> bool
    ensures { result ≡ is_begin tag }
{
    matches!(tag, Tag::In | Tag::Body)
}

impl Marks {
    /// Nothing marked.
    pub(crate) fn new(alloc: Global) -> Marks
        ensures begun { result.begun.keys ≡ [] }
        ensures entered { result.entered.keys ≡ [] }
    {
        Marks {
            begun: IndexSet::new(alloc),
            entered: IndexSet::new(alloc),
        }
    }

    /// Whether a tree is begun and not entered.
    pub(crate) fn is_dead(&self, tree: u32) -> bool
        ensures { result ≡ dead_by self.now tree }
    {
        self.begun.contains(&tree) && !self.entered.contains(&tree)
    }

    /// Marks the tree that a node begins.
    pub(crate) fn mark(&mut self, row: &NodeRow, reached: bool) -> Result<(), NoMemory>
        ensures begun { OnOk result (self.new.begun.keys ≡ marked true row.now self.old.begun.keys) }
        ensures entered { OnOk result (self.new.entered.keys ≡ marked reached row.now self.old.entered.keys) }
    {
        if !is_begin(row.tag) {
            return Ok(());
        }
        self.begun.insert(row.tree)?;
        if reached {
            self.entered.insert(row.tree)?;
        }
        Ok(())
    }
}
