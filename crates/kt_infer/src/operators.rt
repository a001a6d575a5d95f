//! The pass over operators.
ghost use Rattle.std.specs.Prelude.{IfOk};
ghost use Rattle.kt_model.specs.NameUses.{named_at};
ghost use Rattle.kt_model.specs.BodyTrees.{expr_tree};
ghost use Rattle.kt_infer.specs.Families.{IsNoOperand, IsNoOperation};
ghost use Rattle.kt_infer.specs.Noting.{OpensAs, typing_of};

use crate::choices::{
    BOOLEAN, INT, apart, arithmetic_operator, equality_claim, left_way, right_way,
};
use crate::context::BodyContext;
use crate::notes::{Notes, Opened};
use kt_tree::NoMemory;
use kt_tree::ast::{Expr, ExprKind};
use kt_typing::{Claim, Way};

impl Notes {
    /// Opens an expression that works on the values of its parts, or one that chooses or leaves.
    #[cycle(typing)]
    pub fn operation(
        &mut self,
        body: &BodyContext<'_>,
        valued: bool,
        e: &Expr,
    ) -> Result<Opened, NoMemory>
        ensures { IfOk result (λ o. IsNoOperand e.now.kind → OpensAs (typing_of body.now) valued self.old self.new (expr_tree (named_at body.now.uses.now) e.now) o) }
    {
        match &e.kind {
            ExprKind::Sign(_, a) => {
                let found = self.expr(body, Way::Checked(INT), a.get())?;
                Ok(self.unary(e.number, e.span, found, INT))
            }
            ExprKind::Sum(a, b) => {
                let first = self.open(body, true, a.get())?;
                let operator = first.sum_operator(body.table);
                let left = self.close(body.table, left_way(operator), &first)?;
                let right = self.expr(body, right_way(operator), b.get())?;
                Ok(self.binary(e.number, e.span, operator, left, right))
            }
            ExprKind::Arithmetic(o, a, b) => {
                let operator = arithmetic_operator(*o);
                let left = self.expr(body, left_way(operator), a.get())?;
                let right = self.expr(body, right_way(operator), b.get())?;
                Ok(self.binary(e.number, e.span, operator, left, right))
            }
            ExprKind::Compare(_, a, b) => {
                let left = self.expr(body, Way::Checked(INT), a.get())?;
                let right = self.expr(body, Way::Checked(INT), b.get())?;
                Ok(self.pair(e.number, e.span, left, right, Claim::Gives(BOOLEAN)))
            }
            ExprKind::Equal(_, a, b) => {
                let left = self.expr(body, Way::Plain, a.get())?;
                let right = self.expr(body, Way::Plain, b.get())?;
                let claim = equality_claim(apart(left, right), e.span);
                Ok(self.pair(e.number, e.span, left, right, claim))
            }
            _ => {
                let other = self.logic(body, valued, e)?;
                Ok(other)
            }
        }
    }

    /// Opens an expression over truth values, or one that chooses or leaves.
    #[cycle(typing)]
    fn logic(&mut self, body: &BodyContext<'_>, valued: bool, e: &Expr) -> Result<Opened, NoMemory>
        ensures { IfOk result (λ o. IsNoOperand e.now.kind → IsNoOperation e.now.kind → OpensAs (typing_of body.now) valued self.old self.new (expr_tree (named_at body.now.uses.now) e.now) o) }
    {
        match &e.kind {
            ExprKind::Not(a) => {
                let found = self.expr(body, Way::Checked(BOOLEAN), a.get())?;
                Ok(self.unary(e.number, e.span, found, BOOLEAN))
            }
            ExprKind::And(a, b) => {
                let left = self.expr(body, Way::Checked(BOOLEAN), a.get())?;
                let right = self.expr(body, Way::Checked(BOOLEAN), b.get())?;
                Ok(self.pair(e.number, e.span, left, right, Claim::Gives(BOOLEAN)))
            }
            ExprKind::Or(a, b) => {
                let left = self.expr(body, Way::Checked(BOOLEAN), a.get())?;
                let right = self.expr(body, Way::Checked(BOOLEAN), b.get())?;
                Ok(self.pair(e.number, e.span, left, right, Claim::Gives(BOOLEAN)))
            }
            _ => {
                let other = self.choice(body, valued, e)?;
                Ok(other)
            }
        }
    }
}
