//! The texts of findings, types and members.
use crate::reader::text_of;
use kt_model::class_table::{ClassRow, Member, MemberKind, MemberRow, ParamType};
use kt_model::finding::Finding;
use kt_model::kinds::KtType;
use kt_tree::Names;
use std::alloc::AllocError;

/// Writes ` CODE@START-END`, the place in bytes from 0.
fn write_finding(out: &mut String, f: &Finding) -> Result<(), AllocError> {
    let code = f.rule.code();
    let start = f.span.start;
    let end = f.span.end;
    write!(out, " {code}@{start}-{end}")
}

pub fn write_findings(out: &mut String, found: &[Finding]) -> Result<(), AllocError> {
    for f in found {
        write_finding(out, f)?;
    }
    Ok(())
}

fn write_name(out: &mut String, names: &Names, name: u32) -> Result<(), AllocError> {
    out.push_str(text_of(names, name).unwrap_or("?"))
}

/// Writes the name of a class.
pub fn write_class(
    out: &mut String,
    names: &Names,
    rows: &[ClassRow],
    class: u32,
) -> Result<(), AllocError> {
    match rows.get(class as usize) {
        Some(row) => write_name(out, names, row.name),
        None => out.push_str("?"),
    }
}

/// Writes a type: a class or `Nothing`, and `?` where it has one.
pub fn write_type(
    out: &mut String,
    names: &Names,
    rows: &[ClassRow],
    t: &KtType,
) -> Result<(), AllocError> {
    match t.head.class() {
        Some(class) => write_class(out, names, rows, class)?,
        None => out.push_str("Nothing")?,
    }
    if t.nullable {
        out.push_str("?")?;
    }
    Ok(())
}

/// Writes a member as `CLASS.NAME`.
pub fn write_member(
    out: &mut String,
    names: &Names,
    rows: &[ClassRow],
    m: Member,
) -> Result<(), AllocError> {
    let Some(row) = rows.get(m.class as usize) else {
        return out.push_str("?");
    };
    write_name(out, names, row.name)?;
    out.push_str(".")?;
    match row.members.get(m.place as usize) {
        Some(member) => write_name(out, names, member.name),
        None => out.push_str("?"),
    }
}

fn write_types(
    out: &mut String,
    names: &Names,
    rows: &[ClassRow],
    types: &[KtType],
) -> Result<(), AllocError> {
    let mut comma = "";
    for t in types {
        out.push_str(comma)?;
        write_type(out, names, rows, t)?;
        comma = ", ";
    }
    Ok(())
}

fn write_parameter(
    out: &mut String,
    names: &Names,
    rows: &[ClassRow],
    p: &ParamType,
) -> Result<(), AllocError> {
    match p {
        ParamType::Value(t) => write_type(out, names, rows, t),
        ParamType::Lambda(parameters, result) => {
            out.push_str("(")?;
            write_types(out, names, rows, parameters.as_slice())?;
            out.push_str(") -> ")?;
            write_type(out, names, rows, result)
        }
    }
}

fn write_parameters(
    out: &mut String,
    names: &Names,
    rows: &[ClassRow],
    parameters: &[ParamType],
) -> Result<(), AllocError> {
    let mut comma = "";
    for p in parameters {
        out.push_str(comma)?;
        write_parameter(out, names, rows, p)?;
        comma = ", ";
    }
    Ok(())
}

fn kind_word(kind: MemberKind) -> &'static str {
    match kind {
        MemberKind::Function => "function",
        MemberKind::AbstractFunction => "abstract function",
        MemberKind::Field => "field",
        MemberKind::Getter => "getter",
        MemberKind::AbstractProperty => "abstract property",
    }
}

fn write_marks(out: &mut String, row: &MemberRow) -> Result<(), AllocError> {
    if row.is_private {
        out.push_str("private ")?;
    }
    if row.may_override {
        out.push_str("open ")?;
    }
    if row.is_var {
        out.push_str("var ")?;
    }
    out.push_str(kind_word(row.kind))
}

/// Writes a member's row: `private`, `open` and `var` where it is so, its kind, its parameters' types, and its type, `none` where it has none.
pub fn write_row(
    out: &mut String,
    names: &Names,
    rows: &[ClassRow],
    row: &MemberRow,
) -> Result<(), AllocError> {
    write_marks(out, row)?;
    out.push_str(" (")?;
    write_parameters(out, names, rows, row.params.as_slice())?;
    out.push_str("): ")?;
    match &row.result {
        Some(t) => write_type(out, names, rows, t),
        None => out.push_str("none"),
    }
}
