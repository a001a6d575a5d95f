//! The pass over expressions. The parts of an expression are typed before its way is known, alike in each way in which its value is taken; so the left
//! operand of a sum is typed once, though whether it is a text decides how it is checked. Only what the branches of an `if` end in waits for its way.
ghost use Rattle.std.specs.Prelude.{◌≡◌, ◌&&◌, is_some, IfOk, List, [], ◌∷◌, map, option_map, true};
ghost use Rattle.kt_tree.specs.declared.token.Span.{Span};
ghost use Rattle.kt_model.specs.NameUses.{named_at};
ghost use Rattle.kt_model.specs.BodyTrees.{Mark, expr_tree, name_tree, call_tree, seen, seen_trees, piece, inserted_of, named_there};
ghost use Rattle.kt_typing.specs.Typing as spec;
ghost use Rattle.kt_typing.specs.Typing.{Each, judged, all_judged};
ghost use Rattle.kt_infer.specs.Demands.{as_ways};
ghost use Rattle.kt_infer.specs.Noting.{Judges, JudgesAll, Opens, OpensAs, typing_of};
ghost use Rattle.kt_infer.specs.Opening.{IsOpened};

use crate::calls::{Ways, built_in_signature, demanded, function_signature};
use crate::choices::{BOOLEAN, INT, STRING, both, is_valued, name_claim, still};
use crate::context::BodyContext;
use crate::notes::{Notes, Opened};
use crate::opened::{opened_tree, shut};
use kt_model::finding::Rule;
use kt_model::kinds::KtType;
use kt_model::uses::Named;
use kt_tree::ast::{Expr, ExprKind, StringPart};
use kt_tree::{NoMemory, Span};
use kt_typing::{Claim, Operator, Way};

/// What an operator makes of its operands, where it is open.
fn operator_claim(operator: Option<Operator>, span: Span) -> Claim
    ensures { (n : Mark) → n.span ≡ span → (spec.operator_demand operator n 2).claim ≡ result }
{
    match operator {
        Some(o) => Claim::Gives(o.gives),
        None => Claim::Breaks(Rule::Syntax, span),
    }
}

impl Notes {
    /// Types an expression in its way.
    #[cycle(typing)]
    pub fn expr(
        &mut self,
        body: &BodyContext<'_>,
        way: Way,
        e: &Expr,
    ) -> Result<Option<KtType>, NoMemory>
        ensures { IfOk result (Judges self.old self.new (judged (typing_of body.now) way self.old.locals.entries (expr_tree (named_at body.now.uses.now) e.now))) }
    {
        let expression = self.open(body, is_valued(way), e)?;
        let found = self.close(body.table, way, &expression)?;
        Ok(found)
    }

    /// Types the parts of an expression whose value is taken, or not.
    #[cycle(typing)]
    pub fn open(
        &mut self,
        body: &BodyContext<'_>,
        valued: bool,
        e: &Expr,
    ) -> Result<Opened, NoMemory>
        ensures { IfOk result (OpensAs (typing_of body.now) valued self.old self.new (expr_tree (named_at body.now.uses.now) e.now)) }
    {
        match &e.kind {
            ExprKind::Int(_) => Ok(self.literal(e.number, e.span, INT)),
            ExprKind::Bool(_) => Ok(self.literal(e.number, e.span, BOOLEAN)),
            ExprKind::Null => Ok(shut(self.alloc, e.number, e.span)),
            ExprKind::Name(_) => Ok(self.name(body, e.number, e.span)),
            ExprKind::Template(parts) => {
                let complete = self.pieces(body, parts.as_slice())?;
                let claim = Claim::Gives(STRING);
                Ok(opened_tree(self.alloc, e.number, e.span, complete, claim))
            }
            ExprKind::Paren(a) => {
                let inner = self.open(body, true, a.get())?;
                let enclosed = inner.enclosed(e.number)?;
                Ok(enclosed)
            }
            ExprKind::Call {
                callee,
                arguments,
                lambda,
            } => match lambda {
                None => {
                    let word = callee.span;
                    let call = self.call(body, e.number, e.span, word, arguments.as_slice())?;
                    Ok(call)
                }
                Some(_) => Ok(shut(self.alloc, e.number, e.span)),
            },
            _ => {
                let other = self.operation(body, valued, e)?;
                Ok(other)
            }
        }
    }

    /// Opens a literal of a type.
    fn literal(&self, number: u32, span: Span, t: KtType) -> Opened
        ensures { IsOpened result number span true (Claim.Gives t) }
    {
        opened_tree(self.alloc, number, span, true, Claim::Gives(t))
    }

    /// Opens a tree with its one part, which has this type.
    pub fn unary(&self, number: u32, span: Span, part: Option<KtType>, gives: KtType) -> Opened
        ensures { IsOpened result number span (is_some part) (Claim.Gives gives) }
    {
        opened_tree(
            self.alloc,
            number,
            span,
            part.is_some(),
            Claim::Gives(gives),
        )
    }

    /// Opens a tree with its two parts, which have these types.
    pub fn pair(
        &self,
        number: u32,
        span: Span,
        left: Option<KtType>,
        right: Option<KtType>,
        claim: Claim,
    ) -> Opened
        ensures { IsOpened result number span (is_some left && is_some right) claim }
    {
        let complete = both(left.is_some(), right.is_some());
        opened_tree(self.alloc, number, span, complete, claim)
    }

    /// Opens an operator with its two operands, which have these types.
    pub fn binary(
        &self,
        number: u32,
        span: Span,
        operator: Option<Operator>,
        left: Option<KtType>,
        right: Option<KtType>,
    ) -> Opened
        ensures { (n : Mark) → n.number ≡ number → n.span ≡ span → IsOpened result n.number n.span (is_some left && is_some right) (spec.operator_demand operator n 2).claim }
    {
        let claim = operator_claim(operator, span);
        self.pair(number, span, left, right, claim)
    }

    /// Opens a name that stands alone.
    fn name(&self, body: &BodyContext<'_>, number: u32, span: Span) -> Opened
        ensures { Opens (typing_of body.now) self.now self.now (name_tree (named_at body.now.uses.now number) number span) result }
    {
        match body.uses.named(number) {
            Named::Variable(x, _) => {
                let claim = name_claim(span, self.look_up(x));
                opened_tree(self.alloc, number, span, true, claim)
            }
            _ => shut(self.alloc, number, span),
        }
    }

    /// Types arguments in their ways; whether each has a type.
    #[cycle(typing)]
    fn arguments(
        &mut self,
        body: &BodyContext<'_>,
        ways: Ways,
        arguments: &[Expr],
    ) -> Result<bool, NoMemory>
        ensures { IfOk result (JudgesAll self.old self.new (all_judged (typing_of body.now) (as_ways body.now.uses.now ways) self.old.locals.entries (seen_trees (map (seen (named_at body.now.uses.now)) arguments.now)))) }
    {
        let mut complete = true;
        for (place, e) in arguments.iter().enumerate() {
            let way = ways.at(body.uses, place);
            let found = self.expr(body, way, e)?;
            complete = still(complete, found);
        }
        Ok(complete)
    }

    /// Opens a call without a lambda.
    #[cycle(typing)]
    fn call(
        &mut self,
        body: &BodyContext<'_>,
        number: u32,
        span: Span,
        word: Span,
        arguments: &[Expr],
    ) -> Result<Opened, NoMemory>
        ensures { IfOk result (Opens (typing_of body.now) self.old self.new (call_tree (named_at body.now.uses.now number) (seen_trees (map (seen (named_at body.now.uses.now)) arguments.now)) (named_there number span word))) }
    {
        match body.uses.named(number) {
            Named::Function(f, _) => {
                let signature = function_signature(body.uses, f);
                let demand = demanded(signature, span, word, arguments.len());
                let complete = self.arguments(body, demand.ways, arguments)?;
                Ok(opened_tree(self.alloc, number, span, complete, demand.claim))
            }
            Named::BuiltIn(name, _) => {
                let signature = built_in_signature(name);
                let demand = demanded(signature, span, word, arguments.len());
                let complete = self.arguments(body, demand.ways, arguments)?;
                Ok(opened_tree(self.alloc, number, span, complete, demand.claim))
            }
            _ => Ok(shut(self.alloc, number, span)),
        }
    }

    /// Types what is inserted into a string; whether each part has a type.
    #[cycle(typing)]
    fn pieces(&mut self, body: &BodyContext<'_>, parts: &[StringPart]) -> Result<bool, NoMemory>
        ensures { IfOk result (JudgesAll self.old self.new (all_judged (typing_of body.now) (Each Way.Plain) self.old.locals.entries (inserted_of (map (piece (named_at body.now.uses.now)) parts.now)))) }
    {
        let mut complete = true;
        for part in parts {
            let typed = self.inserted(body, part)?;
            complete = both(complete, typed);
        }
        Ok(complete)
    }

    /// Types what one part of a string inserts; whether it has a type.
    #[cycle(typing)]
    fn inserted(&mut self, body: &BodyContext<'_>, part: &StringPart) -> Result<bool, NoMemory>
        ensures { IfOk result (JudgesAll self.old self.new (all_judged (typing_of body.now) (Each Way.Plain) self.old.locals.entries (inserted_of (piece (named_at body.now.uses.now) part.now ∷ [])))) }
    {
        match part {
            StringPart::Text(_) => Ok(true),
            StringPart::Inserted(e) => {
                let found = self.expr(body, Way::Plain, e)?;
                Ok(found.is_some())
            }
        }
    }
}
