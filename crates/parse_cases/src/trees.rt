//! Expressions and statements: each tree's kind and what it holds, and behind it its parts in order.
use crate::heads::{expr_head, is_leaf, lambda_head, stmt_head, subject_head, type_condition};
use crate::writer::{Writer, Written};
use kt_tree::ast::{
    Block, Branch, Catch, Condition, Expr, ExprKind, Lambda, Stmt, StringPart, Subject, WhenBranch,
};
use sqlite_items::Boxed;

/// Writes an expression: a word alone, or a bracket with its parts.
#[cycle(trees)]
pub fn expr(tree: &Expr, out: &mut Writer) -> Written {
    out.number(tree.number, tree.span)?;
    expr_head(&tree.kind, out)?;
    if is_leaf(&tree.kind) {
        return Ok(());
    }
    parts(&tree.kind, out)?;
    out.close()
}

/// Writes the parts of an expression.
#[cycle(trees)]
fn parts(kind: &ExprKind, out: &mut Writer) -> Written {
    match kind {
        ExprKind::Call {
            arguments,
            lambda: behind,
            ..
        } => {
            exprs(arguments.as_slice(), out)?;
            match behind {
                Some(behind) => lambda(behind.get(), out),
                None => Ok(()),
            }
        }
        ExprKind::If {
            condition,
            then,
            otherwise,
        } => {
            expr(condition.get(), out)?;
            branch(then.get(), out)?;
            match otherwise {
                Some(otherwise) => branch(otherwise.get(), out),
                None => Ok(()),
            }
        }
        ExprKind::When {
            subject: looked_at,
            branches,
        } => {
            if let Some(looked_at) = looked_at {
                subject(looked_at.get(), out)?;
            }
            when_branches(branches.as_slice(), out)
        }
        ExprKind::Try {
            body,
            catches: caught,
            finally,
        } => {
            block(body.get(), out)?;
            catches(caught.as_slice(), out)?;
            held_finally(finally, out)
        }
        _ => operands(kind, out),
    }
}

/// Writes the parts of an expression that is no call of a name, `if`, `when` or `try`.
#[cycle(trees)]
fn operands(kind: &ExprKind, out: &mut Writer) -> Written {
    match kind {
        ExprKind::Template(pieces) => string_parts(pieces.as_slice(), out),
        ExprKind::Paren(inner)
        | ExprKind::NotNull(inner)
        | ExprKind::Sign(_, inner)
        | ExprKind::Not(inner)
        | ExprKind::Throw(inner)
        | ExprKind::As(inner, _)
        | ExprKind::AsSafe(inner, _)
        | ExprKind::Is(inner, _)
        | ExprKind::IsNot(inner, _)
        | ExprKind::Member {
            receiver: inner,
            ..
        } => expr(inner.get(), out),
        ExprKind::Return { value, .. } => match value {
            Some(value) => expr(value.get(), out),
            None => Ok(()),
        },
        ExprKind::Sum(left, right)
        | ExprKind::Arithmetic(_, left, right)
        | ExprKind::Compare(_, left, right)
        | ExprKind::Equal(_, left, right)
        | ExprKind::And(left, right)
        | ExprKind::Or(left, right)
        | ExprKind::Elvis(left, right) => {
            expr(left.get(), out)?;
            expr(right.get(), out)
        }
        ExprKind::MemberCall {
            receiver,
            arguments,
            ..
        } => {
            expr(receiver.get(), out)?;
            exprs(arguments.as_slice(), out)
        }
        _ => Ok(()),
    }
}

/// Writes expressions one behind another.
#[cycle(trees)]
pub fn exprs(trees: &[Expr], out: &mut Writer) -> Written {
    for tree in trees {
        expr(tree, out)?;
    }
    Ok(())
}

#[cycle(trees)]
fn string_parts(pieces: &[StringPart], out: &mut Writer) -> Written {
    for piece in pieces {
        match piece {
            StringPart::Text(bytes) => out.bytes(bytes.as_slice())?,
            StringPart::Inserted(tree) => expr(tree, out)?,
        }
    }
    Ok(())
}

#[cycle(trees)]
fn lambda(tree: &Lambda, out: &mut Writer) -> Written {
    lambda_head(tree, out)?;
    block(&tree.body, out)?;
    out.close()
}

/// Writes a block: its statements in braces.
#[cycle(trees)]
pub fn block(tree: &Block, out: &mut Writer) -> Written {
    out.begin("{")?;
    for inner in tree.statements.as_slice() {
        statement(inner, out)?;
    }
    out.end("}")
}

#[cycle(trees)]
fn statement(tree: &Stmt, out: &mut Writer) -> Written {
    stmt_head(tree, out)?;
    match tree {
        Stmt::Expr(inner) => return expr(inner, out),
        Stmt::Local { value, .. } => held_value(value, out)?,
        Stmt::Assign { target, value, .. } => {
            expr(target, out)?;
            held_value(value, out)?;
        }
        Stmt::While {
            condition,
            body,
            ..
        } => {
            expr(condition, out)?;
            branch(body.get(), out)?;
        }
        Stmt::DoWhile {
            body,
            condition,
            ..
        } => {
            block(body, out)?;
            expr(condition, out)?;
        }
        Stmt::For {
            low,
            high,
            body,
            ..
        } => {
            expr(low, out)?;
            expr(high, out)?;
            branch(body.get(), out)?;
        }
    }
    out.close()
}

#[cycle(trees)]
fn held_value(held: &Option<Expr>, out: &mut Writer) -> Written {
    match held {
        Some(tree) => expr(tree, out),
        None => Ok(()),
    }
}

#[cycle(trees)]
fn branch(tree: &Branch, out: &mut Writer) -> Written {
    match tree {
        Branch::Braced(inner) => block(inner, out),
        Branch::Single(inner) => statement(inner, out),
    }
}

#[cycle(trees)]
fn subject(tree: &Subject, out: &mut Writer) -> Written {
    subject_head(tree, out)?;
    expr(&tree.value, out)?;
    out.close()
}

#[cycle(trees)]
fn when_branches(trees: &[WhenBranch], out: &mut Writer) -> Written {
    for tree in trees {
        when_branch(tree, out)?;
    }
    Ok(())
}

#[cycle(trees)]
fn when_branch(tree: &WhenBranch, out: &mut Writer) -> Written {
    match &tree.conditions {
        Some(tests) => {
            out.open("case")?;
            for test in tests.as_slice() {
                condition(test, out)?;
            }
            out.word("->")?;
            branch(&tree.body, out)?;
            out.close()
        }
        None => {
            out.open("else")?;
            branch(&tree.body, out)?;
            out.close()
        }
    }
}

#[cycle(trees)]
fn condition(tree: &Condition, out: &mut Writer) -> Written {
    match tree {
        Condition::Is(_, written) => type_condition("is", *written, out),
        Condition::IsNot(_, written) => type_condition("!is", *written, out),
        Condition::Value(inner) => expr(inner, out),
    }
}

#[cycle(trees)]
fn catches(trees: &[Catch], out: &mut Writer) -> Written {
    for tree in trees {
        catch_clause(tree, out)?;
    }
    Ok(())
}

#[cycle(trees)]
fn catch_clause(tree: &Catch, out: &mut Writer) -> Written {
    out.open_name("catch", tree.name.name)?;
    out.typed(Some(tree.caught))?;
    block(&tree.body, out)?;
    out.close()
}

#[cycle(trees)]
fn held_finally(held: &Option<Boxed<Block>>, out: &mut Writer) -> Written {
    match held {
        Some(tree) => {
            out.open("finally")?;
            block(tree.get(), out)?;
            out.close()
        }
        None => Ok(()),
    }
}
