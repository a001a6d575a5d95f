//! The nodes of a tree itself: `in`, `out`, and those that assume the outcome of a condition.
ghost use Rattle.std.specs.Prelude.{◌≡◌, ◌∷◌, ◌++◌, [], IfOk, OnOk, List, true, false};
ghost use Rattle.kt_model.specs.ControlFlow.{node, on};
ghost use Rattle.kt_model.specs.ControlFlow as flow;
ghost use Rattle.kt_model.specs.Bodies.{node_at};
ghost use Rattle.kt_graph.specs.Building.{Enters, StepsTo, Leaves, Tests, Encloses, in_at, out_at, assume_at, context_at, place_if};

use crate::building::{Builder, Exits, FlowContext};
use kt_model::graph::{FlowEffect, Known, Tag, Variable};
use kt_tree::NoMemory;
use sqlite_items::Items;
use std::alloc::Global;

/// A list of one effect.
pub fn one(alloc: Global, effect: FlowEffect) -> Result<Items<FlowEffect>, NoMemory>
    ensures { IfOk result (λ es. es ≡ effect ∷ []) }
{
    let mut effects = Items::new(alloc);
    effects.push(effect)?;
    Ok(effects)
}

/// The place, where the flow comes to it.
pub fn place_if(returns: bool, n: u32) -> Option<u32>
    ensures { result ≡ place_if returns n }
{
    if returns { Some(n) } else { None }
}

/// A read of a local.
pub fn reads(alloc: Global, local: u32) -> Result<Items<FlowEffect>, NoMemory>
    ensures { IfOk result (λ es. es ≡ flow.reads local ∷ []) }
{
    one(alloc, FlowEffect::Read(Variable::Local(local)))
}

/// A local's declaration.
pub fn declares(alloc: Global, local: u32) -> Result<Items<FlowEffect>, NoMemory>
    ensures { IfOk result (λ es. es ≡ flow.declares local ∷ []) }
{
    one(alloc, FlowEffect::Declare(Variable::Local(local)))
}

/// An assignment of a local, of whose value nothing is known.
pub fn assigns(alloc: Global, local: u32) -> Result<Items<FlowEffect>, NoMemory>
    ensures { IfOk result (λ es. es ≡ flow.assigns local (Known.Literals []) ∷ []) }
{
    one(
        alloc,
        FlowEffect::Assign(Variable::Local(local), Known::Literals(Items::new(alloc))),
    )
}

/// Adds a local's declaration, and the assignment of a value of which nothing is known.
pub fn bring(effects: &mut Items<FlowEffect>, alloc: Global, local: u32) -> Result<(), NoMemory>
    ensures { OnOk result (effects.new ≡ effects.old ++ flow.bring local) }
{
    let local = Variable::Local(local);
    effects.push(FlowEffect::Declare(local))?;
    effects.push(FlowEffect::Assign(local, Known::Literals(Items::new(alloc))))?;
    Ok(())
}

impl Builder {
    /// Adds a node that leads to two places.
    fn fork(
        &mut self,
        context: FlowContext<'_>,
        tree: u32,
        effects: Items<FlowEffect>,
        if_true: u32,
        if_false: u32,
    ) -> Result<u32, NoMemory>
        ensures { IfOk result (λ n. Enters self.old self.new (out_at tree context.entry.copy effects ∷ []) (λ ns. on (context_at ns context.entry) (out_at tree context.entry.copy effects) (node_at ns if_true ∷ node_at ns if_false ∷ [])) (λ ns. node_at ns n ≡ out_at tree context.entry.copy effects)) }
    {
        let n = self.node(tree, Tag::Out, context.copy, effects)?;
        self.lead(n, context.always)?;
        self.lead(n, &[if_true, if_false])?;
        Ok(n)
    }

    /// Adds the node that assumes an outcome of a condition, of which no facts are known yet.
    fn assume(
        &mut self,
        context: FlowContext<'_>,
        tree: u32,
        truth: bool,
        to: Option<u32>,
    ) -> Result<u32, NoMemory>
        ensures { IfOk result (StepsTo self.old self.new (assume_at tree context.entry.copy truth) context.entry to) }
    {
        let effects = one(self.alloc, FlowEffect::Assume(Items::new(self.alloc)))?;
        let Some(twice) = context.copy.checked_mul(2) else {
            return Err(NoMemory);
        };
        let n = if truth {
            self.node(tree, Tag::Assume, twice, effects)?
        } else {
            let Some(odd) = twice.checked_add(1) else {
                return Err(NoMemory);
            };
            self.node(tree, Tag::Assume, odd, effects)?
        };
        self.on(context, n, to)?;
        Ok(n)
    }

    /// Adds a tree's `in`, which does nothing.
    pub fn enter(
        &mut self,
        context: FlowContext<'_>,
        tree: u32,
        to: Option<u32>,
    ) -> Result<u32, NoMemory>
        ensures { IfOk result (StepsTo self.old self.new (in_at tree context.entry.copy []) context.entry to) }
    {
        self.step(context, tree, Tag::In, Items::new(self.alloc), to)
    }

    /// Adds a node of the body itself, which does nothing.
    pub fn bare(
        &mut self,
        context: FlowContext<'_>,
        tag: Tag,
        to: Option<u32>,
    ) -> Result<u32, NoMemory>
        ensures { IfOk result (StepsTo self.old self.new (node 0 tag context.entry.copy []) context.entry to) }
    {
        self.step(context, 0, tag, Items::new(self.alloc), to)
    }

    /// Adds the `out` of a jump, which leads to a place whatever follows the jump.
    pub fn jump(
        &mut self,
        context: FlowContext<'_>,
        tree: u32,
        to: Option<u32>,
    ) -> Result<u32, NoMemory>
        ensures { IfOk result (StepsTo self.old self.new (out_at tree context.entry.copy []) context.entry to) }
    {
        self.step(context, tree, Tag::Out, Items::new(self.alloc), to)
    }

    /// Adds a tree's `out`, and where it is a condition the nodes that assume its outcome.
    pub fn leave(
        &mut self,
        context: FlowContext<'_>,
        exits: Exits,
        tree: u32,
        effects: Items<FlowEffect>,
    ) -> Result<u32, NoMemory>
        ensures { IfOk result (Leaves self.old self.new tree effects context.entry exits) }
    {
        match exits {
            Exits::Then(next) => self.step(context, tree, Tag::Out, effects, next),
            Exits::Branch(on_true, on_false) => {
                let b = self.assume(context, tree, false, on_false)?;
                let a = self.assume(context, tree, true, on_true)?;
                let out = self.fork(context, tree, effects, a, b)?;
                Ok(out)
            }
        }
    }

    /// Adds the `out` of a tree that does nothing there.
    pub fn close(
        &mut self,
        context: FlowContext<'_>,
        exits: Exits,
        tree: u32,
    ) -> Result<u32, NoMemory>
        ensures { IfOk result (Leaves self.old self.new tree [] context.entry exits) }
    {
        self.leave(context, exits, tree, Items::new(self.alloc))
    }

    /// Adds the `out` of a test, and gives where its outcomes lead.
    pub fn test(
        &mut self,
        context: FlowContext<'_>,
        exits: Exits,
        tree: u32,
    ) -> Result<(Option<u32>, Option<u32>), NoMemory>
        ensures { IfOk result (λ r. Tests self.old self.new tree context.entry exits r.0 r.1) }
    {
        match exits {
            Exits::Then(next) => {
                let n = self.jump(context, tree, next)?;
                Ok((Some(n), Some(n)))
            }
            Exits::Branch(on_true, on_false) => {
                self.node(tree, Tag::Out, context.copy, Items::new(self.alloc))?;
                Ok((on_true, on_false))
            }
        }
    }

    /// Adds the `out` of parentheses, and gives what follows that which is inside.
    pub fn enclose(
        &mut self,
        context: FlowContext<'_>,
        exits: Exits,
        tree: u32,
    ) -> Result<Exits, NoMemory>
        ensures { IfOk result (λ inner. Encloses self.old self.new tree context.entry exits inner) }
    {
        match exits {
            Exits::Then(next) => {
                let n = self.jump(context, tree, next)?;
                Ok(Exits::Then(Some(n)))
            }
            Exits::Branch(on_true, on_false) => {
                self.node(tree, Tag::Out, context.copy, Items::new(self.alloc))?;
                Ok(Exits::Branch(on_true, on_false))
            }
        }
    }
}
