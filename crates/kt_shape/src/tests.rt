//! Files whose shapes are allowed, and files in which each rule on shapes is violated.
use crate::shapes;
use kt_model::finding::{Finding, PhaseFault, Rule};
use kt_tree::ast::{
    Access, Assignment, Block, Branch, Expr, ExprKind, File, FunctionBody, FunctionDecl, Ident,
    Stmt,
};
use kt_tree::{Names, NoMemory, Span};
use sqlite_items::{Boxed, Items};
use std::alloc::Global;
use std::test::Fail;

/// A span that begins there.
fn at(start: u32) -> Span {
    Span { start, end: start }
}

fn ident(name: u32, start: u32) -> Ident {
    Ident {
        name,
        span: at(start),
    }
}

/// A tree with that number, which stands at its tenfold.
fn tree(number: u8, kind: ExprKind) -> Expr {
    let number = u32::from(number);
    Expr {
        number,
        span: at(10 * number),
        kind,
    }
}

/// A member of a name, which is the tree with the other number.
fn member(alloc: Global, number: u8, of: u8, access: Access) -> Result<Expr, NoMemory> {
    let receiver = Boxed::new(alloc, tree(of, ExprKind::Name(30)))?;
    Ok(tree(
        number,
        ExprKind::Member {
            receiver,
            access,
            name: ident(31, 500),
        },
    ))
}

/// The assignment of a number, which is the tree 100, to that left side.
fn assign(number: u32, target: Expr) -> Stmt {
    Stmt::Assign {
        number,
        span: at(number),
        target,
        assignment: Assignment::Plain,
        value: Some(tree(100, ExprKind::Int(1))),
    }
}

/// A number that stands as a statement, which is the tree with that number.
fn digit(number: u8) -> Stmt {
    Stmt::Expr(tree(number, ExprKind::Int(1)))
}

/// An `if` with these branches, which is the tree with that number. Its condition is the tree 99.
fn choice(
    alloc: Global,
    number: u8,
    then: Stmt,
    otherwise: Option<Stmt>,
) -> Result<Expr, NoMemory> {
    let condition = Boxed::new(alloc, tree(99, ExprKind::Bool(true)))?;
    let then = Boxed::new(alloc, Branch::Single(then))?;
    let otherwise = match otherwise {
        Some(s) => Some(Boxed::new(alloc, Branch::Single(s))?),
        None => None,
    };
    Ok(tree(
        number,
        ExprKind::If {
            condition,
            then,
            otherwise,
        },
    ))
}

/// The declaration of a local by that value.
fn local(value: Expr) -> Stmt {
    Stmt::Local {
        number: 1,
        span: at(1),
        is_var: false,
        name: ident(32, 7),
        written: None,
        value: Some(value),
    }
}

/// A file with one function.
fn file_of(alloc: Global, statements: Items<Stmt>) -> Result<File, NoMemory> {
    let mut functions = Items::new(alloc);
    functions.push(FunctionDecl {
        span: at(0),
        modifiers: Items::new(alloc),
        name: ident(29, 5),
        parameters: Items::new(alloc),
        result: None,
        body: Some(FunctionBody::Block {
            contract: None,
            block: Block {
                span: at(0),
                statements,
            },
        }),
    })?;
    Ok(File {
        classes: Items::new(alloc),
        functions,
        names: Names::with_built_in(alloc)?,
    })
}

#[test]
fn names_and_members_may_be_assigned(rt: HostRuntime) -> Result<(), Fail> {
    let alloc = rt.alloc();
    let mut statements = Items::new(alloc);
    statements.push(assign(1, tree(2, ExprKind::Name(30))))?;
    statements.push(assign(3, member(alloc, 4, 5, Access::Dot)?))?;
    let file = file_of(alloc, statements)?;
    let answer = shapes(alloc, &file);
    assert!(rt; answer.is_ok());
    Ok(())
}

#[test]
fn others_are_found_in_order(rt: HostRuntime) -> Result<(), Fail> {
    let alloc = rt.alloc();
    let mut statements = Items::new(alloc);
    statements.push(assign(7, tree(8, ExprKind::This)))?;
    statements.push(assign(1, member(alloc, 2, 3, Access::Safe)?))?;
    statements.push(assign(4, tree(5, ExprKind::Name(30))))?;
    let file = file_of(alloc, statements)?;
    let Err(PhaseFault::Findings(found)) = shapes(alloc, &file) else {
        return Err(Fail::from("accepted"));
    };
    let wanted = [
        Finding {
            rule: Rule::AssignTarget,
            span: at(20),
        },
        Finding {
            rule: Rule::AssignTarget,
            span: at(80),
        },
    ];
    assert!(rt; found.as_slice() == wanted.as_slice());
    Ok(())
}

#[test]
fn no_else_is_missing(rt: HostRuntime) -> Result<(), Fail> {
    let alloc = rt.alloc();
    let mut statements = Items::new(alloc);
    statements.push(local(choice(alloc, 2, digit(3), Some(digit(4)))?))?;
    let alone = assign(5, tree(6, ExprKind::Name(30)));
    statements.push(Stmt::Expr(choice(alloc, 7, alone, None)?))?;
    let file = file_of(alloc, statements)?;
    let answer = shapes(alloc, &file);
    assert!(rt; answer.is_ok());
    Ok(())
}

#[test]
fn missing_elses_and_values_are_found(rt: HostRuntime) -> Result<(), Fail> {
    let alloc = rt.alloc();
    let mut statements = Items::new(alloc);
    statements.push(local(choice(alloc, 2, digit(3), None)?))?;
    let assigned = assign(45, tree(6, ExprKind::Name(30)));
    statements.push(local(choice(alloc, 4, assigned, Some(digit(7)))?))?;
    let file = file_of(alloc, statements)?;
    let Err(PhaseFault::Findings(found)) = shapes(alloc, &file) else {
        return Err(Fail::from("accepted"));
    };
    let wanted = [
        Finding {
            rule: Rule::NoElse,
            span: at(20),
        },
        Finding {
            rule: Rule::ValueExpected,
            span: at(45),
        },
    ];
    assert!(rt; found.as_slice() == wanted.as_slice());
    Ok(())
}
