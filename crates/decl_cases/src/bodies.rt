//! Types, expressions and blocks. An expression is one of a few forms, one or two trees deep: what the rules on declarations look at in bodies. No
//! tree has a number, since none of these rules looks at it.
use crate::fault::Fault;
use crate::reader::{Mark, Reader};
use kt_tree::ast::{Block, Expr, ExprKind, FunctionBody, Sign, Stmt, TypeRef};
use kt_tree::{Kind, Span};
use sqlite_items::{Boxed, Items};

/// `NAME` or `NAME?`
pub fn written_type(reader: &mut Reader) -> Result<TypeRef, Fault> {
    let name = reader.name()?;
    let nullable = reader.take(Mark::Question);
    Ok(TypeRef {
        name,
        nullable,
        span: reader.since(name.span.start),
    })
}

/// A type behind `:`, where there is one.
pub fn type_behind_colon(reader: &mut Reader) -> Result<Option<TypeRef>, Fault> {
    if reader.take(Mark::Colon) {
        Ok(Some(written_type(reader)?))
    } else {
        Ok(None)
    }
}

fn tree(span: Span, kind: ExprKind) -> Expr {
    Expr {
        number: 0,
        span,
        kind,
    }
}

/// The value that a token stands for by itself.
fn token_value(kind: &Kind) -> Option<ExprKind> {
    match kind {
        Kind::Int(number) => Some(ExprKind::Int(*number)),
        Kind::True => Some(ExprKind::Bool(true)),
        Kind::False => Some(ExprKind::Bool(false)),
        Kind::Null => Some(ExprKind::Null),
        Kind::This => Some(ExprKind::This),
        Kind::Id(name) => Some(ExprKind::Name(*name)),
        _ => None,
    }
}

/// A string of at most one piece; its text is dropped.
fn string(reader: &mut Reader) -> Result<Expr, Fault> {
    let start = reader.span().start;
    reader.expect(Mark::Quote)?;
    if let Some(Kind::Text(_)) = reader.kind() {
        reader.skip();
    }
    reader.expect(Mark::Quote)?;
    let parts = Items::new(reader.alloc());
    Ok(tree(reader.since(start), ExprKind::Template(parts)))
}

/// A literal, a string, `this` or a name.
fn atom(reader: &mut Reader) -> Result<Expr, Fault> {
    if reader.mark() == Mark::Quote {
        return string(reader);
    }
    let span = reader.span();
    let value = match reader.kind() {
        Some(kind) => token_value(kind),
        None => None,
    };
    match value {
        Some(kind) => {
            reader.skip();
            Ok(tree(span, kind))
        }
        None => Err(reader.unread()),
    }
}

/// The expression, with a type behind `as` or `is` where one follows.
fn with_type(reader: &mut Reader, e: Expr) -> Result<Expr, Fault> {
    let start = e.span.start;
    if reader.take(Mark::As) {
        let written = written_type(reader)?;
        let e = Boxed::new(reader.alloc(), e)?;
        return Ok(tree(reader.since(start), ExprKind::As(e, written)));
    }
    if reader.take(Mark::Is) {
        let written = written_type(reader)?;
        let e = Boxed::new(reader.alloc(), e)?;
        return Ok(tree(reader.since(start), ExprKind::Is(e, written)));
    }
    Ok(e)
}

/// What stands between `(`, which is read, and `)`.
pub fn arguments(reader: &mut Reader) -> Result<Items<Expr>, Fault> {
    let mut arguments = Items::new(reader.alloc());
    if reader.take(Mark::CloseRound) {
        return Ok(arguments);
    }
    for _ in 0..reader.len() {
        let e = atom(reader)?;
        arguments.push(with_type(reader, e)?)?;
        if !reader.take(Mark::Comma) {
            break;
        }
    }
    reader.expect(Mark::CloseRound)?;
    Ok(arguments)
}

/// A name, or a call.
fn named(reader: &mut Reader) -> Result<Expr, Fault> {
    let callee = reader.name()?;
    if !reader.take(Mark::OpenRound) {
        return Ok(tree(callee.span, ExprKind::Name(callee.name)));
    }
    let arguments = arguments(reader)?;
    let span = reader.since(callee.span.start);
    let kind = ExprKind::Call {
        callee,
        arguments,
        lambda: None,
    };
    Ok(tree(span, kind))
}

/// `-` and an atom.
fn negated(reader: &mut Reader) -> Result<Expr, Fault> {
    let start = reader.span().start;
    reader.skip();
    let e = atom(reader)?;
    let e = Boxed::new(reader.alloc(), e)?;
    Ok(tree(reader.since(start), ExprKind::Sign(Sign::Minus, e)))
}

/// An atom in parentheses.
fn parenthesised(reader: &mut Reader) -> Result<Expr, Fault> {
    let start = reader.span().start;
    reader.skip();
    let e = atom(reader)?;
    reader.expect(Mark::CloseRound)?;
    let e = Boxed::new(reader.alloc(), e)?;
    Ok(tree(reader.since(start), ExprKind::Paren(e)))
}

pub fn expression(reader: &mut Reader) -> Result<Expr, Fault> {
    let e = match reader.mark() {
        Mark::Name => named(reader)?,
        Mark::Minus => negated(reader)?,
        Mark::OpenRound => parenthesised(reader)?,
        _ => atom(reader)?,
    };
    with_type(reader, e)
}

/// A value behind `=`, where there is one.
pub fn value_behind_assign(reader: &mut Reader) -> Result<Option<Expr>, Fault> {
    if reader.take(Mark::Assign) {
        Ok(Some(expression(reader)?))
    } else {
        Ok(None)
    }
}

/// A local, whose first word has this mark.
fn local(reader: &mut Reader, mark: Mark) -> Result<Stmt, Fault> {
    let start = reader.span().start;
    reader.skip();
    let name = reader.name()?;
    let written = type_behind_colon(reader)?;
    let value = value_behind_assign(reader)?;
    Ok(Stmt::Local {
        number: 0,
        span: reader.since(start),
        is_var: mark == Mark::Var,
        name,
        written,
        value,
    })
}

fn statement(reader: &mut Reader) -> Result<Stmt, Fault> {
    let mark = reader.mark();
    if mark == Mark::Val || mark == Mark::Var {
        local(reader, mark)
    } else {
        Ok(Stmt::Expr(expression(reader)?))
    }
}

/// Locals and expressions between braces.
pub fn block(reader: &mut Reader) -> Result<Block, Fault> {
    let start = reader.span().start;
    reader.expect(Mark::OpenBrace)?;
    let mut statements = Items::new(reader.alloc());
    for _ in 0..reader.len() {
        if reader.mark() == Mark::CloseBrace {
            break;
        }
        if !reader.take(Mark::Semicolon) {
            statements.push(statement(reader)?)?;
        }
    }
    reader.expect(Mark::CloseBrace)?;
    Ok(Block {
        span: reader.since(start),
        statements,
    })
}

/// `= EXPRESSION` or a block, where there is one.
pub fn body(reader: &mut Reader) -> Result<Option<FunctionBody>, Fault> {
    match reader.mark() {
        Mark::Assign => {
            reader.skip();
            Ok(Some(FunctionBody::Expr(expression(reader)?)))
        }
        Mark::OpenBrace => Ok(Some(FunctionBody::Block {
            contract: None,
            block: block(reader)?,
        })),
        _ => Ok(None),
    }
}
