//! The declarations of a line.
use crate::bodies::{arguments, block, body, type_behind_colon, value_behind_assign, written_type};
use crate::fault::Fault;
use crate::reader::{Mark, Reader};
use kt_lex::{LexFault, lex};
use kt_tree::Source;
use kt_tree::ast::{
    ClassDecl, ClassKeyword, ClassParameter, File, FunctionDecl, Getter, Member, Modifier,
    Parameter, ParameterType, PropertyDecl, Supertype, TypeRef,
};
use sqlite_items::Items;
use std::alloc::Global;

/// The words before a declaration, and where it begins.
#[derive(Drop)]
struct Words {
    start: u32,
    modifiers: Items<Modifier>,
}

fn modifiers(reader: &mut Reader) -> Result<Words, Fault> {
    let start = reader.span().start;
    let mut modifiers = Items::new(reader.alloc());
    for _ in 0..reader.len() {
        let Some(kind) = reader.modifier() else {
            break;
        };
        let span = reader.span();
        modifiers.push(Modifier { kind, span })?;
        reader.skip();
    }
    Ok(Words { start, modifiers })
}

/// `val` or `var`, where one of them stands.
fn is_var(reader: &mut Reader) -> Option<bool> {
    if reader.take(Mark::Val) {
        return Some(false);
    }
    if reader.take(Mark::Var) {
        return Some(true);
    }
    None
}

fn class_parameter(reader: &mut Reader) -> Result<ClassParameter, Fault> {
    let Words { start, modifiers } = modifiers(reader)?;
    let is_var = is_var(reader);
    let name = reader.name()?;
    reader.expect(Mark::Colon)?;
    let written = written_type(reader)?;
    Ok(ClassParameter {
        span: reader.since(start),
        modifiers,
        is_var,
        name,
        written,
    })
}

/// The parameters of a constructor, where `(` follows.
fn class_parameters(reader: &mut Reader) -> Result<Option<Items<ClassParameter>>, Fault> {
    if !reader.take(Mark::OpenRound) {
        return Ok(None);
    }
    let mut parameters = Items::new(reader.alloc());
    for _ in 0..reader.len() {
        if reader.mark() == Mark::CloseRound {
            break;
        }
        parameters.push(class_parameter(reader)?)?;
        if !reader.take(Mark::Comma) {
            break;
        }
    }
    reader.expect(Mark::CloseRound)?;
    Ok(Some(parameters))
}

fn supertype(reader: &mut Reader) -> Result<Supertype, Fault> {
    let name = reader.name()?;
    let arguments = if reader.take(Mark::OpenRound) {
        Some(arguments(reader)?)
    } else {
        None
    };
    Ok(Supertype {
        span: reader.since(name.span.start),
        name,
        arguments,
    })
}

/// The supertypes behind `:`.
fn supertypes(reader: &mut Reader) -> Result<Items<Supertype>, Fault> {
    let mut supertypes = Items::new(reader.alloc());
    if !reader.take(Mark::Colon) {
        return Ok(supertypes);
    }
    for _ in 0..reader.len() {
        supertypes.push(supertype(reader)?)?;
        if !reader.take(Mark::Comma) {
            break;
        }
    }
    Ok(supertypes)
}

/// The types between `(`, which is read, and `)`.
fn types(reader: &mut Reader) -> Result<Items<TypeRef>, Fault> {
    let mut types = Items::new(reader.alloc());
    for _ in 0..reader.len() {
        if reader.mark() == Mark::CloseRound {
            break;
        }
        types.push(written_type(reader)?)?;
        if !reader.take(Mark::Comma) {
            break;
        }
    }
    reader.expect(Mark::CloseRound)?;
    Ok(types)
}

/// A type, or `(TYPES) -> TYPE`.
fn parameter_type(reader: &mut Reader) -> Result<ParameterType, Fault> {
    if !reader.take(Mark::OpenRound) {
        return Ok(ParameterType::Value(written_type(reader)?));
    }
    let parameters = types(reader)?;
    reader.expect(Mark::Arrow)?;
    Ok(ParameterType::Function {
        parameters,
        result: written_type(reader)?,
    })
}

fn parameter(reader: &mut Reader) -> Result<Parameter, Fault> {
    let name = reader.name()?;
    reader.expect(Mark::Colon)?;
    let kind = parameter_type(reader)?;
    Ok(Parameter {
        span: reader.since(name.span.start),
        name,
        kind,
    })
}

fn parameters(reader: &mut Reader) -> Result<Items<Parameter>, Fault> {
    reader.expect(Mark::OpenRound)?;
    let mut parameters = Items::new(reader.alloc());
    for _ in 0..reader.len() {
        if reader.mark() == Mark::CloseRound {
            break;
        }
        parameters.push(parameter(reader)?)?;
        if !reader.take(Mark::Comma) {
            break;
        }
    }
    reader.expect(Mark::CloseRound)?;
    Ok(parameters)
}

/// A function, its modifiers read and `fun` next.
fn function(reader: &mut Reader, words: Words) -> Result<FunctionDecl, Fault> {
    let Words { start, modifiers } = words;
    reader.expect(Mark::Fun)?;
    let name = reader.name()?;
    let parameters = parameters(reader)?;
    let result = type_behind_colon(reader)?;
    let body = body(reader)?;
    Ok(FunctionDecl {
        span: reader.since(start),
        modifiers,
        name,
        parameters,
        result,
        body,
    })
}

/// `get()`, its type where one is written, and its body.
fn getter(reader: &mut Reader) -> Result<Option<Getter>, Fault> {
    if !reader.is_word("get") {
        return Ok(None);
    }
    let start = reader.span().start;
    reader.skip();
    reader.expect(Mark::OpenRound)?;
    reader.expect(Mark::CloseRound)?;
    let written = type_behind_colon(reader)?;
    let Some(body) = body(reader)? else {
        return Err(reader.unread());
    };
    Ok(Some(Getter {
        span: reader.since(start),
        written,
        body,
    }))
}

/// A property, its modifiers and its `val` or `var` read.
fn property(reader: &mut Reader, words: Words, is_var: bool) -> Result<PropertyDecl, Fault> {
    let Words { start, modifiers } = words;
    let name = reader.name()?;
    let written = type_behind_colon(reader)?;
    let value = value_behind_assign(reader)?;
    let getter = getter(reader)?;
    Ok(PropertyDecl {
        span: reader.since(start),
        modifiers,
        is_var,
        name,
        written,
        value,
        getter,
    })
}

fn member(reader: &mut Reader) -> Result<Member, Fault> {
    if reader.is_word("init") {
        reader.skip();
        return Ok(Member::Init(block(reader)?));
    }
    let words = modifiers(reader)?;
    match is_var(reader) {
        Some(is_var) => Ok(Member::Property(property(reader, words, is_var)?)),
        None => Ok(Member::Function(function(reader, words)?)),
    }
}

/// The members between braces, where `{` follows.
fn members(reader: &mut Reader) -> Result<Option<Items<Member>>, Fault> {
    if !reader.take(Mark::OpenBrace) {
        return Ok(None);
    }
    let mut members = Items::new(reader.alloc());
    for _ in 0..reader.len() {
        if reader.mark() == Mark::CloseBrace {
            break;
        }
        if !reader.take(Mark::Semicolon) {
            members.push(member(reader)?)?;
        }
    }
    reader.expect(Mark::CloseBrace)?;
    Ok(Some(members))
}

/// A class or an interface, its modifiers and its keyword read.
fn class(reader: &mut Reader, words: Words, keyword: ClassKeyword) -> Result<ClassDecl, Fault> {
    let Words { start, modifiers } = words;
    let name = reader.name()?;
    let parameters = match keyword {
        ClassKeyword::Class => class_parameters(reader)?,
        ClassKeyword::Interface => None,
    };
    let supertypes = supertypes(reader)?;
    let members = members(reader)?;
    Ok(ClassDecl {
        span: reader.since(start),
        modifiers,
        keyword,
        name,
        parameters,
        supertypes,
        members,
    })
}

/// The classes and the functions of a line, each in the order of the text.
#[derive(Drop)]
struct Declarations {
    classes: Items<ClassDecl>,
    functions: Items<FunctionDecl>,
}

/// Reads one declaration.
fn declaration(reader: &mut Reader, out: &mut Declarations) -> Result<(), Fault> {
    let words = modifiers(reader)?;
    if reader.take(Mark::Class) {
        out.classes
            .push(class(reader, words, ClassKeyword::Class)?)?;
    } else if reader.take(Mark::Interface) {
        out.classes
            .push(class(reader, words, ClassKeyword::Interface)?)?;
    } else {
        out.functions.push(function(reader, words)?)?;
    }
    Ok(())
}

fn all_declarations(reader: &mut Reader) -> Result<Declarations, Fault> {
    let alloc = reader.alloc();
    let mut out = Declarations {
        classes: Items::new(alloc),
        functions: Items::new(alloc),
    };
    for _ in 0..reader.len() {
        if reader.mark() == Mark::End {
            break;
        }
        if !reader.take(Mark::Semicolon) {
            declaration(reader, &mut out)?;
        }
    }
    reader.expect(Mark::End)?;
    Ok(out)
}

/// The file of a line: classes, interfaces and functions of Kotlin's words. `Unread` has the first token that fits no form.
pub fn file_of(alloc: Global, source: &Source) -> Result<File, Fault> {
    let tokens = match lex(alloc, source) {
        Ok(tokens) => tokens,
        Err(LexFault::Bad { span }) => return Err(Fault::Unread(span)),
        Err(LexFault::NoMemory) => return Err(Fault::NoMemory),
    };
    let mut reader = Reader::new(alloc, tokens);
    let Declarations { classes, functions } = all_declarations(&mut reader)?;
    Ok(File {
        classes,
        functions,
        names: reader.into_names(),
    })
}
