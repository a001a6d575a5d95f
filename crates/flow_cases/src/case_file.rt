//! The file round the body of a case: `fun f(..)`, of which it is the body, then `fun main() {}`, `fun give(): Int {}` and `fun fail(): Nothing {}`. So the
//! declarations are 0 `println`, 1 `print`, 2 to 5 these functions, and from 6 on the parameters and locals of `f`.
use crate::reader::Reader;
use crate::words::words_of;
use anyhow::Result;
use kt_tree::Span;
use kt_tree::ast::{
    Block, File, FunctionBody, FunctionDecl, Ident, Parameter, ParameterType, TypeRef,
};
use sqlite_items::Items;
use std::alloc::Global;

const NOWHERE: Span = Span { start: 0, end: 0 };

/// The number of the built-in name `Int`.
const INT: u32 = 3;

/// How a body is written: as statements, or as one expression.
#[derive(Clone, Copy, Debug)]
pub enum BodyForm {
    Statements,
    Expression,
}

/// The file of a body that is written so, of a function with these parameters, whose names are parted by blanks.
pub fn file_of(alloc: Global, parameters: &str, form: BodyForm, trees: &str) -> Result<File> {
    let end = u32::try_from(trees.len()).unwrap_or(u32::MAX);
    let mut reader = Reader::new(alloc, end)?;
    read(&mut reader, trees)?;
    let body = body_of(&mut reader, form)?;
    let parameters = parameters_of(&mut reader, parameters)?;
    let functions = functions_of(&mut reader, parameters, body)?;
    Ok(finished(reader, functions))
}

/// Takes the words of trees, the last first.
fn read(reader: &mut Reader, trees: &str) -> Result<()> {
    let words = words_of(reader.alloc, trees)?;
    for word in words.into_iter().rev() {
        reader.word(word)?;
    }
    Ok(())
}

/// Takes the body.
fn body_of(reader: &mut Reader, form: BodyForm) -> Result<FunctionBody> {
    match form {
        BodyForm::Statements => Ok(FunctionBody::Block {
            contract: None,
            block: reader.block(0)?,
        }),
        BodyForm::Expression => {
            let e = reader.expression()?;
            let _end = reader.end()?;
            Ok(FunctionBody::Expr(e))
        }
    }
}

/// The written type of this name.
fn written(name: u32) -> TypeRef {
    TypeRef {
        name: Ident {
            name,
            span: NOWHERE,
        },
        nullable: false,
        span: NOWHERE,
    }
}

/// Parameters of the type `Int`.
fn parameters_of(reader: &mut Reader, names: &str) -> Result<Items<Parameter>> {
    let mut parameters = Items::new(reader.alloc);
    for text in names.split_whitespace() {
        let name = reader.number_of(text)?;
        parameters.push(Parameter {
            span: NOWHERE,
            name: Ident {
                name,
                span: NOWHERE,
            },
            kind: ParameterType::Value(written(INT)),
        })?;
    }
    Ok(parameters)
}

fn function(
    alloc: Global,
    name: u32,
    parameters: Items<Parameter>,
    given: Option<TypeRef>,
    body: FunctionBody,
) -> FunctionDecl {
    FunctionDecl {
        span: NOWHERE,
        modifiers: Items::new(alloc),
        name: Ident {
            name,
            span: NOWHERE,
        },
        parameters,
        result: given,
        body: Some(body),
    }
}

/// A function without parameters and statements.
fn empty_function(alloc: Global, name: u32, given: Option<TypeRef>) -> FunctionDecl {
    let block = Block {
        span: NOWHERE,
        statements: Items::new(alloc),
    };
    let body = FunctionBody::Block {
        contract: None,
        block,
    };
    function(alloc, name, Items::new(alloc), given, body)
}

/// Adds `main`, `give` and `fail`.
fn add_others(reader: &mut Reader, functions: &mut Items<FunctionDecl>) -> Result<()> {
    let alloc = reader.alloc;
    let main = reader.number_of("main")?;
    functions.push(empty_function(alloc, main, None))?;
    let give = reader.number_of("give")?;
    functions.push(empty_function(alloc, give, Some(written(INT))))?;
    let fail = reader.number_of("fail")?;
    let nothing = reader.number_of("Nothing")?;
    functions.push(empty_function(alloc, fail, Some(written(nothing))))?;
    Ok(())
}

/// All functions, of which the first has these parameters and this body.
fn functions_of(
    reader: &mut Reader,
    parameters: Items<Parameter>,
    body: FunctionBody,
) -> Result<Items<FunctionDecl>> {
    let name = reader.number_of("f")?;
    let alloc = reader.alloc;
    let mut functions = Items::new(alloc);
    functions.push(function(alloc, name, parameters, None, body))?;
    add_others(reader, &mut functions)?;
    Ok(functions)
}

/// The file of these functions.
fn finished(reader: Reader, functions: Items<FunctionDecl>) -> File {
    File {
        classes: Items::new(reader.alloc),
        functions,
        names: reader.names,
    }
}
