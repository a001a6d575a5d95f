//! What the nodes of a graph violate along their paths.
ghost use Rattle.std.specs.Prelude.{◌≡◌, ◌≢◌, ◌<◌, ◌↔◌, ◌++◌, [], length, map, not, get_or, Some, IfOk, IfSome, IsTrue, OnOk, Contains, MatchOption, slice_index_or};
ghost use Rattle.kt_model.specs.ControlFlow.{assigns, reads};
ghost use Rattle.kt_model.specs.NodePaths.{IsAlongAll, IsReached, effects_of};
ghost use Rattle.kt_model.specs.Findings.{Adds};
ghost use Rattle.kt_model.specs.declared.graph.Known.{Known};
ghost use Rattle.kt_model.specs.declared.graph.Variable.TheVariants.{Local};
ghost use Rattle.kt_init.specs.Statuses.{Analyses};
ghost use Rattle.kt_flow.specs.declared.notes.TreeNote.{TreeNote};
ghost use Rattle.kt_flow.specs.Notes.{AreRising};
ghost use Rattle.kt_flow.specs.Statuses.{keeps};
ghost use Rattle.kt_flow.specs.Against.{IsAgainst, IsAgainstOne, IsAgainstAt, IsAgainstBefore};

use crate::notes::TreeNote;
use kt_init::{Init, Status};
use kt_model::finding::{Finding, Rule};
use kt_model::graph::{FlowEffect, Graph, Variable};
use kt_tree::NoMemory;

/// What has been found so far.
pub(crate) type Found = Vec<Finding>;

/// Whether a status says that its variable is assigned along every path, or along none.
fn keeps(status: Status, assigned: bool) -> bool
    ensures { result ≡ keeps status assigned }
{
    match status {
        Status::Assigned => assigned,
        Status::Unassigned => !assigned,
        Status::Either => false,
        Status::Unreached => false,
    }
}

/// The place of a local among variables.
fn place_of(variables: &[Variable], local: u32) -> Option<u32>
    ensures within { IfSome result (λ place. place < length variables.now) }
    ensures same { IfSome result (λ place. slice_index_or variables.now place (Local 0) ≡ Local local) }
{
    for place in 0..variables.len() {
        if variables[place] == Variable::Local(local) {
            return u32::try_from(place).ok();
        }
    }
    None
}

/// The note of a tree, by halving the notes.
fn note_of(notes: &[TreeNote], tree: u32) -> Option<TreeNote>
    requires { AreRising notes.now }
    ensures { MatchOption result ((n : TreeNote) → Contains notes.now n → n.tree ≢ tree) (λ n. Contains notes.now n × (n.tree ≡ tree)) }
{
    match notes.binary_search_by_key(&tree, |note| note.tree) {
        Ok(place) => Some(notes[place]),
        Err(_) => None,
    }
}

/// Whether it is that local.
fn is_local(held: Option<u32>, local: u32) -> bool
    ensures { IsTrue result ↔ (held ≡ Some local) }
{
    match held {
        Some(x) => x == local,
        None => false,
    }
}

/// The notes of a body's trees, its graph and the statuses there.
#[derive(Clone, Copy)]
pub(crate) struct Paths<'a> {
    pub(crate) notes: &'a [TreeNote],
    pub(crate) graph: &'a Graph,
    pub(crate) init: &'a Init,
}

impl Paths<'_> {
    /// Whether the node is reached, and not along every path to it the local is assigned, or unassigned. `NoMemory` where the
    /// graph declares no such local: it is that of another body, for which no name of a resolved file stands.
    fn strays(&self, node: u32, local: u32, assigned: bool) -> Result<bool, NoMemory>
        requires analysed { Analyses self.now.graph.now self.now.init.now }
        requires within { node < length self.now.graph.now.nodes }
        ensures { IfOk result (λ strays. IsTrue strays ↔ (IsReached self.now.graph.now node × (¬ IsAlongAll self.now.graph.now node (Local local) assigned))) }
    {
        if !self.init.reached(node) {
            return Ok(false);
        }
        match place_of(self.graph.variables.as_slice(), local) {
            Some(place) => {
                let status = self.init.status(node, place);
                Ok(!keeps(status, assigned))
            }
            None => Err(NoMemory),
        }
    }

    /// Adds what a node violates that reads a local, and whose tree has that note.
    fn add_read(
        &self,
        node: u32,
        note: &TreeNote,
        local: u32,
        found: &mut Found,
    ) -> Result<(), NoMemory>
        requires analysed { Analyses self.now.graph.now self.now.init.now }
        requires within { node < length self.now.graph.now.nodes }
        ensures { OnOk result (Adds (IsAgainst self.now.graph.now node note.now (reads local)) found.old.items found.new.items) }
    {
        if !is_local(note.read, local) {
            return Ok(());
        }
        if self.strays(node, local, true)? {
            found.push(Finding {
                rule: Rule::Unassigned,
                span: note.word,
            })?;
        }
        Ok(())
    }

    /// Adds what a node violates that assigns a local, and whose tree has that note.
    fn add_assignment(
        &self,
        node: u32,
        note: &TreeNote,
        local: u32,
        found: &mut Found,
    ) -> Result<(), NoMemory>
        requires analysed { Analyses self.now.graph.now self.now.init.now }
        requires within { node < length self.now.graph.now.nodes }
        ensures { (k : Known) → OnOk result (Adds (IsAgainst self.now.graph.now node note.now (assigns local k)) found.old.items found.new.items) }
    {
        if !is_local(note.fixed, local) {
            return Ok(());
        }
        if self.strays(node, local, false)? {
            found.push(Finding {
                rule: Rule::ValTwice,
                span: note.word,
            })?;
        }
        Ok(())
    }

    /// Adds what an effect of a node violates, whose tree has that note.
    fn add_effect(
        &self,
        node: u32,
        note: &TreeNote,
        effect: &FlowEffect,
        found: &mut Found,
    ) -> Result<(), NoMemory>
        requires analysed { Analyses self.now.graph.now self.now.init.now }
        requires within { node < length self.now.graph.now.nodes }
        ensures { OnOk result (Adds (IsAgainst self.now.graph.now node note.now effect.now) found.old.items found.new.items) }
    {
        match effect {
            FlowEffect::Read(variable) => match variable {
                Variable::Local(local) => self.add_read(node, note, *local, found),
                Variable::Field(_) => Ok(()),
            },
            FlowEffect::Assign(variable, _) => match variable {
                Variable::Local(local) => self.add_assignment(node, note, *local, found),
                Variable::Field(_) => Ok(()),
            },
            FlowEffect::Declare(_) => Ok(()),
            FlowEffect::Assume(_) => Ok(()),
            FlowEffect::Kill(_) => Ok(()),
        }
    }

    /// Adds what effects of a node violate, whose tree has that note.
    fn add_effects(
        &self,
        node: u32,
        note: &TreeNote,
        effects: &[FlowEffect],
        found: &mut Found,
    ) -> Result<(), NoMemory>
        requires analysed { Analyses self.now.graph.now self.now.init.now }
        requires within { node < length self.now.graph.now.nodes }
        ensures { OnOk result (Adds (IsAgainstOne self.now.graph.now node note.now effects.now) found.old.items found.new.items) }
    {
        for effect in effects {
            self.add_effect(node, note, effect, found)?;
        }
        Ok(())
    }

    /// Adds what a node violates.
    fn add_node(&self, node: u32, found: &mut Found) -> Result<(), NoMemory>
        requires rising { AreRising self.now.notes.now }
        requires analysed { Analyses self.now.graph.now self.now.init.now }
        requires within { node < length self.now.graph.now.nodes }
        ensures { OnOk result (Adds (IsAgainstAt self.now.notes.now self.now.graph.now node) found.old.items found.new.items) }
    {
        let nodes = self.graph.nodes.as_slice();
        let row = &nodes[node as usize];
        match note_of(self.notes, row.tree) {
            Some(note) => self.add_effects(node, &note, row.effects.as_slice(), found),
            None => Ok(()),
        }
    }

    /// Adds what the nodes before a place violate.
    pub(crate) fn add_nodes(&self, end: u32, found: &mut Found) -> Result<(), NoMemory>
        requires rising { AreRising self.now.notes.now }
        requires analysed { Analyses self.now.graph.now self.now.init.now }
        requires within { end ≡ length self.now.graph.now.nodes }
        ensures { OnOk result (Adds (IsAgainstBefore self.now.notes.now self.now.graph.now end) found.old.items found.new.items) }
    {
        for node in 0..end {
            self.add_node(node, found)?;
        }
        Ok(())
    }
}
