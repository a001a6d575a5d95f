//! Trees without parts.
ghost use Rattle.std.specs.Prelude.{◌≡◌, IfOk, List, true};
ghost use Rattle.kt_tree.specs.declared.token.Span.{Span};
ghost use Rattle.kt_model.specs.NameUses.{named_at};
ghost use Rattle.kt_model.specs.BodyTrees.{Operation, name_tree, named_there};
ghost use Rattle.kt_model.specs.BodyTrees as body;
ghost use Rattle.kt_model.specs.ControlFlow.{returns_of};
ghost use Rattle.kt_graph.specs.Building.{WalksTree};

use crate::building::{Builder, Exits, FlowContext};
use crate::leaving::reads;
use kt_model::uses::{Named, Uses};
use kt_tree::NoMemory;

impl Builder {
    /// Adds a tree of a shape that is not open yet: its `in` alone.
    pub fn shut(
        &mut self,
        context: FlowContext<'_>,
        exits: Exits,
        tree: u32,
    ) -> Result<u32, NoMemory>
        ensures { IfOk result (λ n. (at word : Span) → WalksTree self.old self.new (body.Shut' (named_there tree at word)) context.entry exits n) }
    {
        let _exits = exits;
        let n = self.enter(context, tree, None)?;
        Ok(n)
    }

    /// Adds an operation without parts.
    pub fn leaf(
        &mut self,
        context: FlowContext<'_>,
        exits: Exits,
        tree: u32,
    ) -> Result<u32, NoMemory>
        ensures { IfOk result (λ n. (at word : Span) (o : Operation) → returns_of o ≡ true → WalksTree self.old self.new (body.Operation' (named_there tree at word) o body.Empty') context.entry exits n) }
    {
        let out = self.close(context, exits, tree)?;
        let n = self.enter(context, tree, Some(out))?;
        Ok(n)
    }

    /// Adds a name that stands alone.
    pub fn name(
        &mut self,
        uses: &Uses,
        context: FlowContext<'_>,
        exits: Exits,
        tree: u32,
    ) -> Result<u32, NoMemory>
        ensures { IfOk result (λ n. (at : Span) → WalksTree self.old self.new (name_tree (named_at uses.now tree) tree at) context.entry exits n) }
    {
        match uses.named(tree) {
            Named::Variable(local, _) => {
                let effects = reads(self.alloc, local)?;
                let out = self.leave(context, exits, tree, effects)?;
                let n = self.enter(context, tree, Some(out))?;
                Ok(n)
            }
            _ => {
                let n = self.shut(context, exits, tree)?;
                Ok(n)
            }
        }
    }
}
