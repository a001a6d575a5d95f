//! Strings: their texts, with those of the values of their parts between them.
ghost use Rattle.std.specs.Prelude.{map};
ghost use Rattle.kt_model.specs.BodyTrees.{Template', inserted_of, texts_of, piece};
ghost use Rattle.kt_mean.specs.Evaluation.{with_values, operated};
ghost use Rattle.kt_run.specs.Scene.{scene, Right, Runs};
ghost use Rattle.kt_run.specs.Running.{program_seen, names, part};
ghost use Rattle.kt_run.specs.Nests.{Nests};

use crate::evaluator::{Evaluator, Node, ResolvedFile};
use crate::state::{Halt, State};
use crate::texts::{insert, string};
use kt_mean::Value;
use kt_outside::Output;
use kt_tree::ast::StringPart;

impl<F> Evaluator<'_, '_, F> {
    // A string: the values of its parts, from left to right, give their texts.
    pub(crate) fn template<O: Output>(
        &self,
        state: &mut State,
        out: &mut O,
        parts: &[StringPart],
    ) -> Result<Value, Halt>
    where
        F: Fn(u64, &ResolvedFile<'_>, &mut State, &mut O, Node<'_>) -> Result<Value, Halt>,
        requires nests { Nests self.now.depth self.now.resolved.now O.state (F.pre self.now.evaluate) (F.post self.now.evaluate) }
        requires right { Right (with_values (program_seen self.now.resolved.now) (part self.now.resolved.now self.now.depth) (inserted_of (map (piece (names self.now.resolved.now)) parts.now)) (operated (Template' (texts_of (map (piece (names self.now.resolved.now)) parts.now))))) state.old }
        ensures { Runs (with_values (program_seen self.now.resolved.now) (part self.now.resolved.now self.now.depth) (inserted_of (map (piece (names self.now.resolved.now)) parts.now)) (operated (Template' (texts_of (map (piece (names self.now.resolved.now)) parts.now))))) (scene state.old (O.state out.old)) result (scene state.new (O.state out.new)) }
    {
        let mut bytes = Vec::new(self.resolved.alloc);
        let mut has_parts = false;
        for piece in parts {
            let e = match piece {
                StringPart::Text(text) => {
                    bytes.extend_from_slice(text.as_slice())?;
                    continue;
                }
                StringPart::Inserted(e) => e,
            };
            let value = self.part(state, out, Node::Expr(e))?;
            insert(&mut bytes, &value)?;
            has_parts = true;
        }
        string(state, bytes, has_parts)
    }
}
