//! The types and the findings of a body.
ghost use Rattle.std.specs.Prelude.{◌≡◌, [], Contains, IfOk, OnOk, map};
ghost use Rattle.std.specs.Option.{option_copied};
ghost use Rattle.kt_model.specs.Classes.{outlines, written};
ghost use Rattle.kt_model.specs.NameUses.{named_at, declaration_type, function_place};
ghost use Rattle.kt_model.specs.BodyTrees.{listed};
ghost use Rattle.kt_model.specs.Bodies.{body_trees_of, owner_parameters, owner_trees};
ghost use Rattle.kt_model.specs.Findings.{AreFindings};
ghost use Rattle.kt_typing.specs.Typing as spec;
ghost use Rattle.kt_typing.specs.Typing.{all_judged, body_judged, body_ways, owner_ways, parameter_types};
ghost use Rattle.kt_infer.specs.Left.{is_in};
ghost use Rattle.kt_infer.specs.Noting.{JudgesAll, Keeps, by_last, typing_of};

use crate::choices::value_way;
use crate::context::BodyContext;
use crate::notes::Notes;
use indexmap::IndexMap;
use kt_model::finding::{Findings, in_order};
use kt_model::kinds::KtType;
use kt_model::uses::{Body, Owner};
use kt_tree::NoMemory;
use kt_tree::ast::FunctionBody;
use kt_typing::{Cast, TypeRow};
use sqlite_items::Items;
use std::alloc::Global;

/// The types of a body's trees in the order of the pass, the casts, and the findings of typing in order.
#[derive(Drop)]
pub struct Typed {
    pub types: Items<TypeRow>,
    pub casts: Items<Cast>,
    pub findings: Findings,
}

/// The written body of an owner, if it has one, and the written result of its function. The bodies of members, getters and classes are not open yet.
fn written<'a>(body: &Body<'a>) -> (Option<&'a FunctionBody>, Option<KtType>)
    ensures trees { owner_trees body.now.file.now body.now.uses.now body.now.owner ≡ body_trees_of (named_at body.now.uses.now) (option_copied result.0) }
    ensures ways { owner_ways body.now.file.now body.now.uses.now body.now.owner ≡ body_ways result.1 (option_copied result.0) }
{
    match body.owner {
        Owner::Function(f) => match body.file.functions.as_slice().get(f as usize) {
            Some(function) => match &function.body {
                Some(written) => (Some(written), body.uses.function_result(f)),
                None => (None, None),
            },
            None => (None, None),
        },
        _ => (None, None),
    }
}

/// The declarations of an owner's parameters.
fn parameters<'a>(body: &Body<'a>) -> &'a [u32]
    ensures { result.now ≡ owner_parameters body.now.uses.now body.now.owner }
{
    match body.owner {
        Owner::Function(f) => body.uses.parameters(f),
        _ => &[],
    }
}

impl Notes {
    /// Gives parameters their written types.
    fn bring(&mut self, body: &BodyContext<'_>, parameters: &[u32]) -> Result<(), NoMemory>
        ensures { OnOk result (Keeps self.old self.new (parameter_types (typing_of body.now) self.old.locals.entries parameters.now)) }
    {
        for x in parameters {
            let written = body.uses.written(*x as usize);
            self.declare(*x, written)?;
        }
        Ok(())
    }

    /// Types the trees of a body; whether the last has a type.
    fn trees(
        &mut self,
        body: &BodyContext<'_>,
        trees: Option<&FunctionBody>,
        gives: Option<KtType>,
    ) -> Result<bool, NoMemory>
        ensures { IfOk result (JudgesAll self.old self.new (by_last (all_judged (typing_of body.now) (body_ways gives (option_copied trees.entry)) self.old.locals.entries (body_trees_of (named_at body.now.uses.now) (option_copied trees.entry))))) }
    {
        match trees {
            Some(written) => match written {
                FunctionBody::Expr(e) => {
                    let found = self.expr(body, value_way(gives), e)?;
                    Ok(found.is_some())
                }
                FunctionBody::Block { contract: _, block } => {
                    let typed = self.statements(body, block.statements.as_slice())?;
                    Ok(typed)
                }
            },
            None => Ok(true),
        }
    }
}

/// The types of a body's trees, in the order of the pass, and the findings of typing there: exactly those of their definition, in order, where `left` are the
/// numbers of the trees out of which a path leads, in any order. There are no casts yet. `NoMemory` where there is none for them. Each tree is typed once.
#[tactic(auto, unfolding(kt_typing::specs::Typing::body_judged))]
pub fn type_body(alloc: Global, body: &Body<'_>, left: &[u32]) -> Result<Typed, NoMemory>
    ensures types { IfOk result (λ it. it.types ≡ (body_judged body.now.file.now (written (outlines body.now.table.now)) body.now.uses.now (is_in left.now) body.now.owner).rows) }
    ensures casts { IfOk result (λ it. it.casts ≡ []) }
    ensures findings { IfOk result (λ it. AreFindings (Contains (body_judged body.now.file.now (written (outlines body.now.table.now)) body.now.uses.now (is_in left.now) body.now.owner).findings) it.findings) }
{
    let mut notes = Notes {
        alloc,
        locals: IndexMap::new(alloc),
        rows: Items::new(alloc),
        findings: Vec::new(alloc),
    };
    let (trees, gives) = written(body);
    let context = BodyContext {
        table: body.table,
        uses: body.uses,
        owner: body.owner,
        left,
    };
    notes.bring(&context, parameters(body))?;
    notes.trees(&context, trees, gives)?;
    let Notes {
        alloc: _,
        locals: _,
        rows,
        findings,
    } = notes;
    Ok(Typed {
        types: rows,
        casts: Items::new(alloc),
        findings: in_order(findings),
    })
}
