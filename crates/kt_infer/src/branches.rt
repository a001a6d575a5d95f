//! The pass over branches and returns. Of a branch whose value is taken the last statement is opened, and ended in the way of the `if`, unless the branch
//! never ends.
ghost use Rattle.std.specs.Prelude.{◌≡◌, ◌≤◌, IfOk, Option, Some, length, map, option_map, take, true};
ghost use Rattle.kt_tree.specs.declared.ast.body.Expr.{Expr};
ghost use Rattle.kt_tree.specs.declared.ast.body.Branch.{Branch};
ghost use Rattle.kt_tree.specs.declared.ast.body.ExprKind.TheVariants as kind;
ghost use Rattle.kt_model.specs.NameUses.{named_at};
ghost use Rattle.kt_model.specs.BodyTrees.{Return', braces_there, branch_trees, expr_tree, listed, otherwise, seen, seen_branch, seen_optional, stmt_tree, whole};
ghost use Rattle.kt_typing.specs.Typing.{Each, all_judged};
ghost use Rattle.kt_infer.specs.Families.{IsNoLogic, IsNoOperand, IsNoOperation};
ghost use Rattle.kt_infer.specs.Noting.{JudgesAll, JudgesLeading, Opens, OpensAs, OpensEnd, OpensLast, by_last, typing_of};

use crate::calls::owner_result;
use crate::choices::{BOOLEAN, NOTHING, UNIT, bare_return, both, nothing_so_far, value_way};
use crate::context::BodyContext;
use crate::endings::{declared_number, never_left};
use crate::notes::{Notes, Opened, nothing_between};
use crate::opened::{joined_tree, opened_tree, shut};
use kt_tree::ast::{Branch, Expr, ExprKind, Stmt};
use kt_tree::{NoMemory, Span};
use kt_typing::{Claim, Way};
use sqlite_items::Boxed;

impl Notes {
    /// Opens an expression that chooses or leaves, or is of no form that is open.
    #[cycle(typing)]
    pub fn choice(
        &mut self,
        body: &BodyContext<'_>,
        valued: bool,
        e: &Expr,
    ) -> Result<Opened, NoMemory>
        ensures { IfOk result (λ o. IsNoOperand e.now.kind → IsNoOperation e.now.kind → IsNoLogic e.now.kind → OpensAs (typing_of body.now) valued self.old self.new (expr_tree (named_at body.now.uses.now) e.now) o) }
    {
        match &e.kind {
            ExprKind::If {
                condition,
                then,
                otherwise,
            } => {
                if valued {
                    let joined = self.joining(body, e)?;
                    return Ok(joined);
                }
                let found = self.expr(body, Way::Checked(BOOLEAN), condition.get())?;
                let first = self.branch(body, then.get())?;
                let second = self.otherwise(body, otherwise)?;
                let complete = both(found.is_some(), both(first, second));
                let claim = Claim::Gives(UNIT);
                Ok(opened_tree(self.alloc, e.number, e.span, complete, claim))
            }
            ExprKind::Return { label, value } => match label {
                None => {
                    let leaving = self.leave(body, e.number, e.span, value)?;
                    Ok(leaving)
                }
                Some(_) => Ok(shut(self.alloc, e.number, e.span)),
            },
            ExprKind::Throw(_) => Ok(shut(self.alloc, e.number, e.span)),
            _ => Ok(shut(self.alloc, e.number, e.span)),
        }
    }

    /// Opens an `if` whose value is taken: what its branches end in is opened, and what is noted behind the end of the first is set aside.
    #[cycle(typing)]
    fn joining(&mut self, body: &BodyContext<'_>, e: &Expr) -> Result<Opened, NoMemory>
        ensures { IfOk result (λ o. (c : Expr) (x : Branch) (y : Option Branch) → e.now.kind ≡ kind.If c x y → OpensAs (typing_of body.now) true self.old self.new (expr_tree (named_at body.now.uses.now) e.now) o) }
    {
        match &e.kind {
            ExprKind::If {
                condition,
                then,
                otherwise,
            } => {
                let typed = self.expr(body, Way::Checked(BOOLEAN), condition.get())?;
                let complete = typed.is_some();
                let first = self.ending(body, then.get())?;
                let nothing = nothing_between(self.alloc);
                let before = self.exchange(nothing);
                let second = self.other_ending(body, otherwise)?;
                let between = self.exchange(before);
                let (alloc, number, span) = (self.alloc, e.number, e.span);
                let opened = joined_tree(alloc, number, span, complete, first, between, second)?;
                Ok(opened)
            }
            _ => Ok(shut(self.alloc, e.number, e.span)),
        }
    }

    /// Types the statements of a branch and opens the last, whose value is taken.
    #[cycle(typing)]
    fn ending(&mut self, body: &BodyContext<'_>, branch: &Branch) -> Result<Opened, NoMemory>
        ensures { IfOk result (OpensLast (typing_of body.now) self.old self.new (seen_branch (named_at body.now.uses.now) branch.now).braces (branch_trees (named_at body.now.uses.now) branch.now)) }
    {
        match branch {
            Branch::Braced(block) => {
                let last = self.last(body, block.span, block.statements.as_slice())?;
                Ok(last)
            }
            Branch::Single(s) => {
                let last = self.statement(body, true, s)?;
                Ok(last)
            }
        }
    }

    /// Types what stands behind `else`, if anything does, and opens its last statement.
    #[cycle(typing)]
    fn other_ending(
        &mut self,
        body: &BodyContext<'_>,
        branch: &Option<Boxed<Branch>>,
    ) -> Result<Opened, NoMemory>
        ensures { IfOk result (OpensLast (typing_of body.now) self.old self.new (braces_there (option_map (seen_branch (named_at body.now.uses.now)) branch.now)) (otherwise (option_map (branch_trees (named_at body.now.uses.now)) branch.now))) }
    {
        match branch {
            Some(branch) => {
                let last = self.ending(body, branch.get())?;
                Ok(last)
            }
            None => Ok(Opened::Absent),
        }
    }

    /// Types the statements of a block one behind another, and opens the last, whose value is taken. An empty block stands for `Unit`.
    #[cycle(typing)]
    fn last(
        &mut self,
        body: &BodyContext<'_>,
        braces: Span,
        statements: &[Stmt],
    ) -> Result<Opened, NoMemory>
        ensures { IfOk result (OpensLast (typing_of body.now) self.old self.new (Some braces) (listed (map (stmt_tree (named_at body.now.uses.now)) statements.now))) }
    {
        match statements.split_last() {
            Some((s, before)) => {
                let nothing = self.leading(body, statements, before.len())?;
                let last = self.block_end(body, nothing, s)?;
                Ok(last)
            }
            None => Ok(Opened::EmptyBlock(braces)),
        }
    }

    /// Opens the last statement of a block, by whether one before it is of type `Nothing`. Where the block never ends the statement is ended at once: its
    /// value need not be the one that is asked for.
    #[cycle(typing)]
    fn block_end(
        &mut self,
        body: &BodyContext<'_>,
        nothing: bool,
        s: &Stmt,
    ) -> Result<Opened, NoMemory>
        ensures { IfOk result (OpensEnd (typing_of body.now) nothing self.old self.new (stmt_tree (named_at body.now.uses.now) s.now)) }
    {
        let number = declared_number(body.uses, s);
        if never_left(body.left, nothing, number) {
            let found = self.stmt(body, s)?;
            Ok(Opened::Ended(found))
        } else {
            let last = self.statement(body, true, s)?;
            Ok(last)
        }
    }

    /// Types so many statements from the first on; whether one of them is of type `Nothing`.
    #[cycle(typing)]
    fn leading(
        &mut self,
        body: &BodyContext<'_>,
        statements: &[Stmt],
        count: usize,
    ) -> Result<bool, NoMemory>
        requires { count ≤ length statements.now }
        ensures { IfOk result (JudgesLeading self.old self.new (all_judged (typing_of body.now) (Each Way.Unvalued) self.old.locals.entries (listed (map (stmt_tree (named_at body.now.uses.now)) (take count statements.now))))) }
    {
        let mut nothing = false;
        for place in 0..count {
            let found = self.stmt(body, &statements[place])?;
            nothing = nothing_so_far(nothing, found);
        }
        Ok(nothing)
    }

    /// Opens a `return` of the function under way.
    #[cycle(typing)]
    fn leave(
        &mut self,
        body: &BodyContext<'_>,
        number: u32,
        span: Span,
        value: &Option<Boxed<Expr>>,
    ) -> Result<Opened, NoMemory>
        ensures { IfOk result (Opens (typing_of body.now) self.old self.new (Return' (whole number span) (seen_optional (option_map (seen (named_at body.now.uses.now)) value.now)))) }
    {
        let gives = owner_result(body.uses, body.owner);
        match value {
            None => {
                let claim = bare_return(gives, span);
                Ok(opened_tree(self.alloc, number, span, true, claim))
            }
            Some(e) => {
                let found = self.expr(body, value_way(gives), e.get())?;
                Ok(self.unary(number, span, found, NOTHING))
            }
        }
    }

    /// Types the statements of a branch; whether the last of them has a type.
    #[cycle(typing)]
    fn branch(&mut self, body: &BodyContext<'_>, branch: &Branch) -> Result<bool, NoMemory>
        ensures { IfOk result (JudgesAll self.old self.new (by_last (all_judged (typing_of body.now) (Each Way.Unvalued) self.old.locals.entries (branch_trees (named_at body.now.uses.now) branch.now)))) }
    {
        match branch {
            Branch::Braced(block) => {
                let typed = self.statements(body, block.statements.as_slice())?;
                Ok(typed)
            }
            Branch::Single(s) => {
                let found = self.stmt(body, s)?;
                Ok(found.is_some())
            }
        }
    }

    /// Types what stands behind `else`, if anything does; whether the last statement has a type.
    #[cycle(typing)]
    fn otherwise(
        &mut self,
        body: &BodyContext<'_>,
        branch: &Option<Boxed<Branch>>,
    ) -> Result<bool, NoMemory>
        ensures { IfOk result (JudgesAll self.old self.new (by_last (all_judged (typing_of body.now) (Each Way.Unvalued) self.old.locals.entries (otherwise (option_map (branch_trees (named_at body.now.uses.now)) branch.now))))) }
    {
        match branch {
            Some(branch) => {
                let typed = self.branch(body, branch.get())?;
                Ok(typed)
            }
            None => Ok(true),
        }
    }
}
