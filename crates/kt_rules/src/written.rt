//! NO_TYPE: declarations whose type must be written.
ghost use Rattle.std.specs.Prelude.{◌≡◌, ◌++◌, ◌==◌, OnOk};
ghost use Rattle.std.specs.List.{list_any, flat_map};
ghost use Rattle.kt_model.specs.TopNames.{top_names};
ghost use Rattle.kt_model.specs.MemberRules as spec;

use kt_decl::{body_gives_unit, has_member_function, push_where};
use kt_model::body_site::BodySite;
use kt_model::finding::{Finding, Rule};
use kt_model::top_names::TopNames;
use kt_tree::NoMemory;
use kt_tree::ast::{ClassParameter, Expr, ExprKind, File, FunctionDecl, Member};

/// What an initialiser's type is read off with: the file, its top, the classes above the class, and the parameters of its constructor.
#[derive(Clone, Copy)]
pub(crate) struct Around<'a> {
    pub file: &'a File,
    pub tops: &'a TopNames,
    pub above: &'a [u32],
    pub parameters: &'a [ClassParameter],
}

fn is_parameter(parameters: &[ClassParameter], name: u32) -> bool
    ensures { result ≡ list_any (λ p. p.name.name == name) parameters.now }
{
    for p in parameters {
        if p.name.name == name {
            return true;
        }
    }
    false
}

fn is_readable(around: &Around, kind: &ExprKind) -> bool
    requires { around.now.tops.now ≡ top_names around.now.file.now }
    ensures { result ≡ spec.is_readable (record { file = around.now.file.now; above = around.now.above.now; parameters = around.now.parameters.now }) kind.now }
{
    match kind {
        ExprKind::Int(_) => true,
        ExprKind::Bool(_) => true,
        ExprKind::Null => true,
        ExprKind::Template(_) => true,
        ExprKind::Call { callee, .. } => {
            !has_member_function(around.file, around.above, callee.name)
                && (around.tops.is_function(callee.name)
                    || around.tops.class_named(callee.name).is_some())
        }
        ExprKind::Name(name) => is_parameter(around.parameters, *name),
        _ => false,
    }
}

fn has_readable(around: &Around, value: &Option<Expr>) -> bool
    requires { around.now.tops.now ≡ top_names around.now.file.now }
    ensures { result ≡ spec.has_readable (record { file = around.now.file.now; above = around.now.above.now; parameters = around.now.parameters.now }) value.now }
{
    match value {
        Some(e) => is_readable(around, &e.kind),
        None => false,
    }
}

/// Whether a function's type must be written and is not.
pub(crate) fn lacks_result(f: &FunctionDecl) -> bool
    ensures { result ≡ spec.lacks_result f.now }
{
    f.result.is_none() && !body_gives_unit(&f.body)
}

/// Puts in a member whose type must be written.
pub(crate) fn at_type(
    around: &Around,
    member: &Member,
    out: &mut Vec<Finding>,
) -> Result<(), NoMemory>
    requires { around.now.tops.now ≡ top_names around.now.file.now }
    ensures { OnOk result (out.new.items ≡ out.old.items ++ spec.member_type (record { file = around.now.file.now; above = around.now.above.now; parameters = around.now.parameters.now }) member.now) }
{
    match member {
        Member::Init(_) => Ok(()),
        Member::Function(f) => push_where(out, lacks_result(f), Rule::NoType, f.name.span),
        Member::Property(p) => {
            let lacks = p.written.is_none() && !has_readable(around, &p.value);
            push_where(out, lacks, Rule::NoType, p.name.span)
        }
    }
}

fn at_local(site: &BodySite, out: &mut Vec<Finding>) -> Result<(), NoMemory>
    ensures { OnOk result (out.new.items ≡ out.old.items ++ spec.local_type site.now) }
{
    match site {
        BodySite::Written(_) => Ok(()),
        BodySite::Untyped(x) => push_where(out, true, Rule::NoType, x.span),
    }
}

/// Puts in the locals with neither a written type nor an initialiser.
pub(crate) fn at_locals(sites: &[BodySite], out: &mut Vec<Finding>) -> Result<(), NoMemory>
    ensures { OnOk result (out.new.items ≡ out.old.items ++ flat_map spec.local_type sites.now) }
{
    for s in sites {
        at_local(s, out)?;
    }
    Ok(())
}
