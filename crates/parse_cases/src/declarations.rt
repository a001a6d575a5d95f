//! Files and declarations.
use crate::heads::{variable_head, variable_word};
use crate::trees::{block, expr, exprs};
use crate::writer::{Writer, Written};
use kt_tree::ast::{
    ClassDecl, ClassKeyword, ClassParameter, Contract, Effect, EffectKind, File, FunctionBody,
    FunctionDecl, Getter, Ident, Member, Modifier, ModifierKind, Parameter, ParameterType,
    PropertyDecl, Returned, Supertype, TypeRef,
};
use sqlite_items::Items;
use std::alloc::{AllocError, Global};

/// The file's classes and functions; with numbers, where these are shown.
pub fn file_text(alloc: Global, file: File, numbers: bool) -> Result<String, AllocError> {
    let File {
        classes,
        functions,
        names,
    } = file;
    let mut out = Writer::new(alloc, names, numbers);
    out.open("file")?;
    for tree in classes.as_slice() {
        class(tree, &mut out)?;
    }
    function_list(functions.as_slice(), &mut out)?;
    out.close()?;
    Ok(out.into_text())
}

fn function_list(trees: &[FunctionDecl], out: &mut Writer) -> Written {
    for tree in trees {
        function(tree, out)?;
    }
    Ok(())
}

/// Writes the modifiers behind an open bracket.
fn modifiers(modifiers: &[Modifier], out: &mut Writer) -> Written {
    out.begin("(")?;
    for modifier in modifiers {
        out.word(modifier_word(modifier.kind))?;
    }
    Ok(())
}

fn modifier_word(kind: ModifierKind) -> &'static str {
    match kind {
        ModifierKind::Public => "public",
        ModifierKind::Private => "private",
        ModifierKind::Open => "open",
        ModifierKind::Abstract => "abstract",
        ModifierKind::Final => "final",
        ModifierKind::Override => "override",
        ModifierKind::Inline => "inline",
    }
}

/// Writes a class or an interface: its parameters in round brackets and its members in braces, where these are written.
fn class(tree: &ClassDecl, out: &mut Writer) -> Written {
    modifiers(tree.modifiers.as_slice(), out)?;
    out.word(class_word(tree.keyword))?;
    out.name(tree.name.name)?;
    class_parameters(&tree.parameters, out)?;
    supertypes(tree.supertypes.as_slice(), out)?;
    members(&tree.members, out)?;
    out.close()
}

fn class_word(keyword: ClassKeyword) -> &'static str {
    match keyword {
        ClassKeyword::Class => "class",
        ClassKeyword::Interface => "interface",
    }
}

fn class_parameters(parameters: &Option<Items<ClassParameter>>, out: &mut Writer) -> Written {
    let Some(parameters) = parameters else {
        return Ok(());
    };
    out.begin("[")?;
    for parameter in parameters.as_slice() {
        class_parameter(parameter, out)?;
    }
    out.end("]")
}

fn class_parameter(parameter: &ClassParameter, out: &mut Writer) -> Written {
    modifiers(parameter.modifiers.as_slice(), out)?;
    if let Some(is_var) = parameter.is_var {
        out.word(variable_word(is_var))?;
    }
    out.name(parameter.name.name)?;
    out.typed(Some(parameter.written))?;
    out.close()
}

fn supertypes(supertypes: &[Supertype], out: &mut Writer) -> Written {
    for supertype in supertypes {
        supertype_of(supertype, out)?;
    }
    Ok(())
}

/// Writes a supertype, and its arguments in square brackets where they are written.
fn supertype_of(supertype: &Supertype, out: &mut Writer) -> Written {
    out.open_name("super", supertype.name.name)?;
    if let Some(arguments) = &supertype.arguments {
        out.begin("[")?;
        exprs(arguments.as_slice(), out)?;
        out.end("]")?;
    }
    out.close()
}

fn members(members: &Option<Items<Member>>, out: &mut Writer) -> Written {
    let Some(members) = members else {
        return Ok(());
    };
    out.begin("{")?;
    for tree in members.as_slice() {
        member(tree, out)?;
    }
    out.end("}")
}

fn member(tree: &Member, out: &mut Writer) -> Written {
    match tree {
        Member::Init(body) => {
            out.open("init")?;
            block(body, out)?;
            out.close()
        }
        Member::Function(declared) => function(declared, out),
        Member::Property(declared) => property(declared, out),
    }
}

fn property(tree: &PropertyDecl, out: &mut Writer) -> Written {
    modifiers(tree.modifiers.as_slice(), out)?;
    out.word(variable_word(tree.is_var))?;
    out.name(tree.name.name)?;
    out.typed(tree.written)?;
    if let Some(value) = &tree.value {
        expr(value, out)?;
    }
    getter(&tree.getter, out)?;
    out.close()
}

fn getter(tree: &Option<Getter>, out: &mut Writer) -> Written {
    let Some(tree) = tree else {
        return Ok(());
    };
    out.open("get")?;
    out.typed(tree.written)?;
    body(&tree.body, out)?;
    out.close()
}

fn function(tree: &FunctionDecl, out: &mut Writer) -> Written {
    modifiers(tree.modifiers.as_slice(), out)?;
    out.word("fun")?;
    out.name(tree.name.name)?;
    parameters(tree.parameters.as_slice(), out)?;
    out.typed(tree.result)?;
    if let Some(written) = &tree.body {
        body(written, out)?;
    }
    out.close()
}

fn parameters(parameters: &[Parameter], out: &mut Writer) -> Written {
    out.begin("[")?;
    for parameter in parameters {
        parameter_of(parameter, out)?;
    }
    out.end("]")
}

fn parameter_of(parameter: &Parameter, out: &mut Writer) -> Written {
    match &parameter.kind {
        ParameterType::Value(written) => {
            out.begin("(")?;
            out.name(parameter.name.name)?;
            out.typed(Some(*written))?;
            out.close()
        }
        ParameterType::Function {
            parameters,
            result: given,
        } => { function_type(parameter.name, parameters.as_slice(), *given, out) }
    }
}

/// Writes a parameter of function type: its name, in square brackets the types of its parameters, and its result.
fn function_type(name: Ident, types: &[TypeRef], given: TypeRef, out: &mut Writer) -> Written {
    out.begin("(")?;
    out.name(name.name)?;
    out.begin("[")?;
    for written in types {
        out.written_type(*written)?;
    }
    out.end("]")?;
    out.typed(Some(given))?;
    out.close()
}

/// Writes a body: an expression behind `=`, or a block with its contract.
fn body(tree: &FunctionBody, out: &mut Writer) -> Written {
    match tree {
        FunctionBody::Expr(value) => {
            out.word("=")?;
            expr(value, out)
        }
        FunctionBody::Block {
            contract: written,
            block: statements,
        } => {
            contract(written, out)?;
            block(statements, out)
        }
    }
}

fn contract(tree: &Option<Contract>, out: &mut Writer) -> Written {
    let Some(tree) = tree else {
        return Ok(());
    };
    out.open("contract")?;
    for promised in tree.effects.as_slice() {
        effect(promised, out)?;
    }
    out.close()
}

fn effect(tree: &Effect, out: &mut Writer) -> Written {
    match &tree.kind {
        EffectKind::Returns {
            returned,
            condition,
        } => {
            out.open(returned_word(*returned))?;
            expr(condition, out)?;
            out.close()
        }
        EffectKind::CallsInPlace { parameter, kind } => calls_in_place(*parameter, *kind, out),
    }
}

fn returned_word(returned: Returned) -> &'static str {
    match returned {
        Returned::Normal => "returns",
        Returned::True => "returns-true",
        Returned::False => "returns-false",
        Returned::Null => "returns-null",
        Returned::NotNull => "returns-not-null",
    }
}

fn calls_in_place(parameter: Ident, kind: Option<Ident>, out: &mut Writer) -> Written {
    out.open_name("calls-in-place", parameter.name)?;
    if let Some(kind) = kind {
        out.name(kind.name)?;
    }
    out.close()
}
