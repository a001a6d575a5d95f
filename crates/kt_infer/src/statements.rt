//! The pass over statements.
ghost use Rattle.std.specs.Prelude.{◌≡◌, ℕ, IfOk, map, option_map, Option, Some, None, Bool, false};
ghost use Rattle.kt_tree.specs.declared.token.Span.{Span};
ghost use Rattle.kt_model.specs.declared.uses.Named.{Named};
ghost use Rattle.kt_model.specs.Classes.{outlines, written};
ghost use Rattle.kt_model.specs.NameUses.{named_at};
ghost use Rattle.kt_model.specs.BodyTrees.{Mark, Operation, stmt_tree, seen_optional, listed, seen, local_tree, assign_tree, assigned_tree, named_there, compound_of};
ghost use Rattle.kt_typing.specs.Typing as spec;
ghost use Rattle.kt_typing.specs.Typing.{Each, judged, all_judged};
ghost use Rattle.kt_infer.specs.Noting.{Judges, JudgesAll, Opens, OpensAs, by_last, typing_of};

use crate::choices::{
    UNIT, arithmetic_operator, assign_claim, both, claimed, is_text, kept_claim, known_type,
    left_way, name_claim, right_way, sum_operator, type_in, type_or_none, value_way,
};
use crate::context::BodyContext;
use crate::notes::{Notes, Opened};
use crate::opened::{opened_tree, shut};
use kt_model::class_table::ClassTable;
use kt_model::finding::Rule;
use kt_model::kinds::KtType;
use kt_model::uses::Named;
use kt_tree::ast::{Assignment, Expr, ExprKind, Stmt};
use kt_tree::{NoMemory, Span};
use kt_typing::{Claim, Operator, Way};

/// The span of an expression that is a name alone.
pub fn name_of(e: &Expr) -> Option<Span>
    ensures { (uses : ℕ → Named) → (seen uses e.now).name ≡ result }
{
    match &e.kind {
        ExprKind::Name(_) => Some(e.span),
        _ => None,
    }
}

/// What a compound assignment does, by whether its local is a text.
fn operator_of(assignment: Assignment, text: bool) -> Option<Operator>
    ensures { (o : Operation) → compound_of assignment ≡ Some o → spec.operator_of o text ≡ result }
{
    match assignment {
        Assignment::Plain => None,
        Assignment::Sum => Some(sum_operator(text)),
        Assignment::Arithmetic(o) => arithmetic_operator(o),
    }
}

/// What a compound assignment is, with a written operand or without.
fn made_claim(
    table: &ClassTable,
    span: Span,
    operator: Option<Operator>,
    local: Option<KtType>,
) -> Claim
    ensures without { (cx : spec.TypeContext) (n : Mark) → cx.classes ≡ written (outlines table.now) → n.span ≡ span → result ≡ spec.compound_claim cx n operator local 0 }
    ensures with_one { (cx : spec.TypeContext) (n : Mark) → cx.classes ≡ written (outlines table.now) → n.span ≡ span → result ≡ spec.compound_claim cx n operator local 1 }
{
    match operator {
        Some(o) => kept_claim(table, span, o.gives, local),
        None => Claim::Breaks(Rule::Syntax, span),
    }
}

/// What a declaration is: no local is declared inside its own initialiser.
fn declaration_claim(
    span: Span,
    before: Option<Option<KtType>>,
    behind: Option<Option<KtType>>,
) -> Claim
    ensures { (n : Mark) → n.span ≡ span → result ≡ spec.declaration_claim n before behind }
{
    match (before, behind) {
        (None, Some(_)) => Claim::Breaks(Rule::Syntax, span),
        _ => Claim::Gives(UNIT),
    }
}

impl Notes {
    /// Types statements one behind another; whether the last has a type.
    #[cycle(typing)]
    pub fn statements(
        &mut self,
        body: &BodyContext<'_>,
        statements: &[Stmt],
    ) -> Result<bool, NoMemory>
        ensures { IfOk result (JudgesAll self.old self.new (by_last (all_judged (typing_of body.now) (Each Way.Unvalued) self.old.locals.entries (listed (map (stmt_tree (named_at body.now.uses.now)) statements.now))))) }
    {
        let mut complete = true;
        for s in statements {
            let found = self.stmt(body, s)?;
            complete = found.is_some();
        }
        Ok(complete)
    }

    /// Types a statement, whose value is not taken.
    #[cycle(typing)]
    pub fn stmt(&mut self, body: &BodyContext<'_>, s: &Stmt) -> Result<Option<KtType>, NoMemory>
        ensures { IfOk result (Judges self.old self.new (judged (typing_of body.now) Way.Unvalued self.old.locals.entries (stmt_tree (named_at body.now.uses.now) s.now))) }
    {
        let statement = self.statement(body, false, s)?;
        let found = self.close(body.table, Way::Unvalued, &statement)?;
        Ok(found)
    }

    /// Types the parts of a statement whose value is taken, or not.
    #[cycle(typing)]
    pub fn statement(
        &mut self,
        body: &BodyContext<'_>,
        valued: bool,
        s: &Stmt,
    ) -> Result<Opened, NoMemory>
        ensures { IfOk result (OpensAs (typing_of body.now) valued self.old self.new (stmt_tree (named_at body.now.uses.now) s.now)) }
    {
        match s {
            Stmt::Expr(e) => {
                let expression = self.open(body, valued, e)?;
                Ok(expression)
            }
            Stmt::Local {
                number,
                span,
                name,
                value,
                ..
            } => {
                let local = self.local(body, *number, *span, name.span, value)?;
                Ok(local)
            }
            Stmt::Assign {
                number,
                span,
                target,
                assignment,
                value,
            } => {
                let word = name_of(target);
                let assigned = self.assign(body, *number, *span, word, *assignment, value)?;
                Ok(assigned)
            }
            Stmt::While { number, span, .. } => Ok(shut(self.alloc, *number, *span)),
            Stmt::DoWhile { number, span, .. } => Ok(shut(self.alloc, *number, *span)),
            Stmt::For { number, span, .. } => Ok(shut(self.alloc, *number, *span)),
        }
    }

    /// Opens the declaration of a local.
    #[cycle(typing)]
    fn local(
        &mut self,
        body: &BodyContext<'_>,
        number: u32,
        span: Span,
        word: Span,
        value: &Option<Expr>,
    ) -> Result<Opened, NoMemory>
        ensures { IfOk result (Opens (typing_of body.now) self.old self.new (local_tree (named_at body.now.uses.now number) (named_there number span word) (option_map (seen (named_at body.now.uses.now)) value.now))) }
    {
        match body.uses.named(number) {
            Named::Variable(x, _) => match value {
                None => {
                    let written = body.uses.written(x as usize);
                    self.declare(x, written)?;
                    Ok(opened_tree(self.alloc, number, span, true, Claim::Gives(UNIT)))
                }
                Some(e) => {
                    let written = body.uses.written(x as usize);
                    let before = self.look_up(x);
                    let known = known_type(before, written);
                    let way = value_way(known);
                    let found = self.expr(body, way, e)?;
                    let behind = self.look_up(x);
                    let claim = declaration_claim(span, before, behind);
                    self.initialise(x, written, found)?;
                    Ok(opened_tree(self.alloc, number, span, found.is_some(), claim))
                }
            },
            _ => Ok(shut(self.alloc, number, span)),
        }
    }

    /// Opens an assignment.
    #[cycle(typing)]
    fn assign(
        &mut self,
        body: &BodyContext<'_>,
        number: u32,
        span: Span,
        word: Option<Span>,
        assignment: Assignment,
        value: &Option<Expr>,
    ) -> Result<Opened, NoMemory>
        ensures { IfOk result (Opens (typing_of body.now) self.old self.new (assign_tree (named_at body.now.uses.now number) number span word assignment (option_map (seen (named_at body.now.uses.now)) value.now))) }
    {
        match word {
            Some(word) => {
                let named = self.assign_name(body, number, span, word, assignment, value)?;
                Ok(named)
            }
            None => Ok(shut(self.alloc, number, span)),
        }
    }

    /// Opens an assignment of a name.
    #[cycle(typing)]
    fn assign_name(
        &mut self,
        body: &BodyContext<'_>,
        number: u32,
        span: Span,
        word: Span,
        assignment: Assignment,
        value: &Option<Expr>,
    ) -> Result<Opened, NoMemory>
        ensures { IfOk result (Opens (typing_of body.now) self.old self.new (assign_tree (named_at body.now.uses.now number) number span (Some word) assignment (option_map (seen (named_at body.now.uses.now)) value.now))) }
    {
        match body.uses.named(number) {
            Named::Variable(x, _) => match assignment {
                Assignment::Plain => {
                    let plain = self.plain(body, number, span, word, x, value)?;
                    Ok(plain)
                }
                Assignment::Sum => {
                    let made = self.compound(body, number, span, word, x, assignment, value)?;
                    Ok(made)
                }
                Assignment::Arithmetic(_) => {
                    let made = self.compound(body, number, span, word, x, assignment, value)?;
                    Ok(made)
                }
            },
            _ => Ok(shut(self.alloc, number, span)),
        }
    }

    /// Opens an assignment by `=`.
    #[cycle(typing)]
    fn plain(
        &mut self,
        body: &BodyContext<'_>,
        number: u32,
        span: Span,
        word: Span,
        x: u32,
        value: &Option<Expr>,
    ) -> Result<Opened, NoMemory>
        ensures { IfOk result (λ o. (fixed : Bool) → Opens (typing_of body.now) self.old self.new (assigned_tree (named_there number span word) x fixed None (option_map (seen (named_at body.now.uses.now)) value.now)) o) }
    {
        match value {
            Some(e) => {
                let target = self.look_up(x);
                let t = type_or_none(target);
                let way = value_way(t);
                let found = self.expr(body, way, e)?;
                let claim = assign_claim(word, target);
                Ok(opened_tree(self.alloc, number, span, found.is_some(), claim))
            }
            None => Ok(shut(self.alloc, number, span)),
        }
    }

    /// Reads the old value of a compound assignment; whether it has a type.
    fn old_value(
        &mut self,
        body: &BodyContext<'_>,
        way: Way,
        word: Span,
        old: Option<Option<KtType>>,
    ) -> Result<Option<KtType>, NoMemory>
        ensures { IfOk result (Judges self.old self.new (spec.old_value (typing_of body.now) way word old self.old.locals.entries)) }
    {
        let outcome = claimed(body.table, way, word, name_claim(word, old));
        self.refuse(outcome)?;
        Ok(type_in(outcome))
    }

    /// Types the written operand of a compound assignment; whether it has a type, or is not written.
    #[cycle(typing)]
    fn operand(
        &mut self,
        body: &BodyContext<'_>,
        way: Way,
        value: &Option<Expr>,
    ) -> Result<bool, NoMemory>
        ensures { IfOk result (JudgesAll self.old self.new (all_judged (typing_of body.now) (Each way) self.old.locals.entries (seen_optional (option_map (seen (named_at body.now.uses.now)) value.now)))) }
    {
        match value {
            Some(e) => {
                let found = self.expr(body, way, e)?;
                Ok(found.is_some())
            }
            None => Ok(true),
        }
    }

    /// Opens an assignment that reads its local first.
    #[cycle(typing)]
    fn compound(
        &mut self,
        body: &BodyContext<'_>,
        number: u32,
        span: Span,
        word: Span,
        x: u32,
        assignment: Assignment,
        value: &Option<Expr>,
    ) -> Result<Opened, NoMemory>
        ensures { IfOk result (λ r. (fixed : Bool) (o : Operation) → compound_of assignment ≡ Some o → Opens (typing_of body.now) self.old self.new (assigned_tree (named_there number span word) x fixed (Some o) (option_map (seen (named_at body.now.uses.now)) value.now)) r) }
    {
        let local = self.look_up(x);
        let t = type_or_none(local);
        let text = is_text(t);
        let operator = operator_of(assignment, text);
        let left = left_way(operator);
        let right = right_way(operator);
        let old = self.old_value(body, left, word, local)?;
        let operand = self.operand(body, right, value)?;
        let claim = made_claim(body.table, span, operator, t);
        let complete = both(old.is_some(), operand);
        Ok(opened_tree(self.alloc, number, span, complete, claim))
    }
}
