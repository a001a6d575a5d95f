//! The walk over bodies that lists what happens to names.
ghost use Rattle.std.specs.Prelude.{◌≡◌, ◌++◌, ◌∷◌, [], OnOk, IfOk, option_map};
ghost use Rattle.std.specs.List.{flat_map};
ghost use Rattle.kt_model.specs.declared.name_events.NameEvent.TheVariants.{Reads, Calls, Opens, Closes};
ghost use Rattle.kt_model.specs.NameEvents.{ident, seen_events, expr_events, stmt_events, block_events, branch_events, piece_events, if_written, if_there, left_events, parameter_events, body_events, function_events};

use kt_model::name_events::NameEvent;
use kt_tree::ast::{
    Block, Branch, Expr, ExprKind, FunctionBody, FunctionDecl, Ident, Parameter, ParameterType,
    Stmt, StringPart,
};
use kt_tree::{NoMemory, Span};
use sqlite_items::Boxed;
use std::alloc::Global;

/// The events found so far.
pub(crate) type Events = Vec<NameEvent>;

fn put(event: NameEvent, out: &mut Events) -> Result<(), NoMemory>
    ensures { OnOk result (out.new.items ≡ out.old.items ++ event ∷ []) }
{
    out.push(event)?;
    Ok(())
}

/// Adds that a name is read.
fn in_name(tree: u32, name: u32, span: Span, out: &mut Events) -> Result<(), NoMemory>
    ensures { OnOk result (out.new.items ≡ out.old.items ++ Reads tree (ident name span) ∷ []) }
{
    let name = Ident { name, span };
    put(NameEvent::Reads { tree, name }, out)
}

/// Adds those of an expression.
#[cycle(events)]
pub(crate) fn in_expr(e: &Expr, out: &mut Events) -> Result<(), NoMemory>
    ensures { OnOk result (out.new.items ≡ out.old.items ++ expr_events e.now) }
{
    match &e.kind {
        ExprKind::Name(name) => in_name(e.number, *name, e.span, out),
        ExprKind::Template(pieces) => in_pieces(pieces.as_slice(), out),
        ExprKind::Paren(a) | ExprKind::Not(a) | ExprKind::Throw(a) | ExprKind::Sign(_, a) => {
            in_expr(a.get(), out)
        }
        ExprKind::Sum(a, b)
        | ExprKind::Arithmetic(_, a, b)
        | ExprKind::Compare(_, a, b)
        | ExprKind::Equal(_, a, b)
        | ExprKind::And(a, b)
        | ExprKind::Or(a, b) => {
            in_expr(a.get(), out)?;
            in_expr(b.get(), out)
        }
        ExprKind::Call {
            callee,
            arguments,
            lambda,
        } => match lambda {
            None => in_call(e.number, *callee, arguments.as_slice(), out),
            Some(_) => Ok(()),
        },
        ExprKind::If {
            condition,
            then,
            otherwise,
        } => {
            in_expr(condition.get(), out)?;
            in_branch(then.get(), out)?;
            in_otherwise(otherwise, out)
        }
        ExprKind::Return { label, value } => match label {
            None => in_returned(value, out),
            Some(_) => Ok(()),
        },
        _ => Ok(()),
    }
}

/// Adds those of a call without a lambda.
#[cycle(events)]
fn in_call(tree: u32, callee: Ident, arguments: &[Expr], out: &mut Events) -> Result<(), NoMemory>
    ensures { OnOk result (out.new.items ≡ out.old.items ++ Calls tree callee ∷ flat_map expr_events arguments.now) }
{
    put(NameEvent::Calls { tree, name: callee }, out)?;
    in_exprs(arguments, out)
}

#[cycle(events)]
fn in_exprs(es: &[Expr], out: &mut Events) -> Result<(), NoMemory>
    ensures { OnOk result (out.new.items ≡ out.old.items ++ flat_map expr_events es.now) }
{
    for e in es {
        in_expr(e, out)?;
    }
    Ok(())
}

#[cycle(events)]
fn in_pieces(pieces: &[StringPart], out: &mut Events) -> Result<(), NoMemory>
    ensures { OnOk result (out.new.items ≡ out.old.items ++ flat_map piece_events pieces.now) }
{
    for piece in pieces {
        in_piece(piece, out)?;
    }
    Ok(())
}

#[cycle(events)]
fn in_piece(piece: &StringPart, out: &mut Events) -> Result<(), NoMemory>
    ensures { OnOk result (out.new.items ≡ out.old.items ++ piece_events piece.now) }
{
    match piece {
        StringPart::Text(_) => Ok(()),
        StringPart::Inserted(e) => in_expr(e, out),
    }
}

#[cycle(events)]
fn in_returned(value: &Option<Boxed<Expr>>, out: &mut Events) -> Result<(), NoMemory>
    ensures { OnOk result (out.new.items ≡ out.old.items ++ if_written (option_map seen_events value.now)) }
{
    match value {
        Some(e) => in_expr(e.get(), out),
        None => Ok(()),
    }
}

#[cycle(events)]
fn in_otherwise(branch: &Option<Boxed<Branch>>, out: &mut Events) -> Result<(), NoMemory>
    ensures { OnOk result (out.new.items ≡ out.old.items ++ if_there (option_map branch_events branch.now)) }
{
    match branch {
        Some(b) => in_branch(b.get(), out),
        None => Ok(()),
    }
}

#[cycle(events)]
fn in_branch(branch: &Branch, out: &mut Events) -> Result<(), NoMemory>
    ensures { OnOk result (out.new.items ≡ out.old.items ++ branch_events branch.now) }
{
    match branch {
        Branch::Braced(block) => in_block(block, out),
        Branch::Single(s) => in_stmt(s, out),
    }
}

/// Adds those of a block.
#[cycle(events)]
pub(crate) fn in_block(block: &Block, out: &mut Events) -> Result<(), NoMemory>
    ensures { OnOk result (out.new.items ≡ out.old.items ++ block_events block.now) }
{
    put(NameEvent::Opens, out)?;
    in_stmts(block.statements.as_slice(), out)?;
    put(NameEvent::Closes, out)
}

#[cycle(events)]
fn in_stmts(statements: &[Stmt], out: &mut Events) -> Result<(), NoMemory>
    ensures { OnOk result (out.new.items ≡ out.old.items ++ flat_map stmt_events statements.now) }
{
    for s in statements {
        in_stmt(s, out)?;
    }
    Ok(())
}

#[cycle(events)]
fn in_stmt(s: &Stmt, out: &mut Events) -> Result<(), NoMemory>
    ensures { OnOk result (out.new.items ≡ out.old.items ++ stmt_events s.now) }
{
    match s {
        Stmt::Expr(e) => in_expr(e, out),
        Stmt::Local {
            number,
            span: _,
            is_var,
            name,
            written,
            value,
        } => {
            in_value(value, out)?;
            put(
                NameEvent::Local {
                    tree: *number,
                    name: *name,
                    is_var: *is_var,
                    written: *written,
                },
                out,
            )
        }
        Stmt::Assign {
            number,
            target,
            value,
            ..
        } => {
            in_left(*number, target, out)?;
            in_value(value, out)
        }
        Stmt::While { .. } => Ok(()),
        Stmt::DoWhile { .. } => Ok(()),
        Stmt::For { .. } => Ok(()),
    }
}

/// Adds those of a left side.
#[cycle(events)]
fn in_left(tree: u32, target: &Expr, out: &mut Events) -> Result<(), NoMemory>
    ensures { OnOk result (out.new.items ≡ out.old.items ++ left_events tree (seen_events target.now)) }
{
    match &target.kind {
        ExprKind::Name(name) => put(
            NameEvent::Assigns {
                tree,
                name: Ident {
                    name: *name,
                    span: target.span,
                },
            },
            out,
        ),
        _ => in_expr(target, out),
    }
}

#[cycle(events)]
fn in_value(value: &Option<Expr>, out: &mut Events) -> Result<(), NoMemory>
    ensures { OnOk result (out.new.items ≡ out.old.items ++ if_written (option_map seen_events value.now)) }
{
    match value {
        Some(e) => in_expr(e, out),
        None => Ok(()),
    }
}

/// Adds that of a parameter. One of function type has none yet.
fn in_parameter(parameter: &Parameter, out: &mut Events) -> Result<(), NoMemory>
    ensures { OnOk result (out.new.items ≡ out.old.items ++ parameter_events parameter.now) }
{
    match &parameter.kind {
        ParameterType::Value(written) => put(
            NameEvent::Parameter {
                name: parameter.name,
                written: *written,
            },
            out,
        ),
        ParameterType::Function { .. } => Ok(()),
    }
}

fn in_parameters(parameters: &[Parameter], out: &mut Events) -> Result<(), NoMemory>
    ensures { OnOk result (out.new.items ≡ out.old.items ++ flat_map parameter_events parameters.now) }
{
    for p in parameters {
        in_parameter(p, out)?;
    }
    Ok(())
}

fn in_body(body: &Option<FunctionBody>, out: &mut Events) -> Result<(), NoMemory>
    ensures { OnOk result (out.new.items ≡ out.old.items ++ body_events body.now) }
{
    match body {
        None => Ok(()),
        Some(FunctionBody::Expr(e)) => in_expr(e, out),
        Some(FunctionBody::Block { block, .. }) => in_block(block, out),
    }
}

#[tactic(auto, unfolding(kt_model::specs::NameEvents::function_events))]
fn in_function(f: &FunctionDecl, out: &mut Events) -> Result<(), NoMemory>
    ensures { OnOk result (out.new.items ≡ out.old.items ++ function_events f.now) }
{
    put(NameEvent::Opens, out)?;
    in_parameters(f.parameters.as_slice(), out)?;
    in_body(&f.body, out)?;
    put(NameEvent::Closes, out)
}

/// The events of parameters.
pub(crate) fn of_parameters(alloc: Global, parameters: &[Parameter]) -> Result<Events, NoMemory>
    ensures { IfOk result (λ out. out.items ≡ flat_map parameter_events parameters.now) }
{
    let mut out = Vec::new(alloc);
    in_parameters(parameters, &mut out)?;
    Ok(out)
}

/// The events of a function.
pub(crate) fn of_function(alloc: Global, f: &FunctionDecl) -> Result<Events, NoMemory>
    ensures { IfOk result (λ out. out.items ≡ function_events f.now) }
{
    let mut out = Vec::new(alloc);
    in_function(f, &mut out)?;
    Ok(out)
}

/// The events of functions, one behind another.
pub(crate) fn of_functions(alloc: Global, functions: &[FunctionDecl]) -> Result<Events, NoMemory>
    ensures { IfOk result (λ out. out.items ≡ flat_map function_events functions.now) }
{
    let mut out = Vec::new(alloc);
    for f in functions {
        in_function(f, &mut out)?;
    }
    Ok(out)
}
