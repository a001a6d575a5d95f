//! RESERVED_MEMBER and OVERRIDE: the names of members, and what they override.
ghost use Rattle.std.specs.Prelude.{◌≡◌, ◌<◌, ◌++◌, ◌||◌, ◌&&◌, not, OnOk, length};
ghost use Rattle.std.specs.List.{list_all};
ghost use Rattle.kt_model.specs.Classes.{outlines};
ghost use Rattle.kt_model.specs.Members.{result_same, row_of, rows_test};
ghost use Rattle.kt_model.specs.MemberRules as spec;

use kt_decl::{
    candidates, have_one_shape, is_among, member_row, own_row, push_where, result_fits, result_same,
};
use kt_model::class_table::{ClassTable, Member, MemberRow};
use kt_model::finding::{Finding, Rule};
use kt_tree::NoMemory;
use kt_tree::ast::{Ident, Modifier, ModifierKind};
use std::alloc::Global;

fn is_reserved(name: u32) -> bool
    ensures { result ≡ spec.is_reserved name }
{
    name == 13 || name == 17 || name == 18
}

fn keeps_type(mine: &MemberRow, theirs: &MemberRow) -> bool
    ensures { result ≡ (not theirs.now.is_var || (mine.now.is_var && result_same mine.now.result theirs.now.result)) }
{
    !theirs.is_var || (mine.is_var && result_same(mine, theirs))
}

/// Whether a member may override another.
fn overrides(t: &ClassTable, is_override: bool, mine: &MemberRow, theirs: &MemberRow) -> bool
    ensures { result ≡ spec.overrides (outlines t.now) is_override mine.now theirs.now }
{
    is_override
        && theirs.may_override
        && have_one_shape(mine, theirs)
        && result_fits(t, mine, theirs)
        && keeps_type(mine, theirs)
        && !mine.is_private
}

/// Whether a class's own member of a name may override a candidate.
fn overrides_candidate(t: &ClassTable, is_override: bool, c: u32, name: u32, m: Member) -> bool
    ensures { result ≡ rows_test (spec.overrides (outlines t.now) is_override) (spec.own_row (outlines t.now) c name) (row_of (outlines t.now) m) }
{
    match (own_row(t, c, name), member_row(t, m)) {
        (Some(mine), Some(theirs)) => overrides(t, is_override, mine, theirs),
        _ => false,
    }
}

fn overrides_each(t: &ClassTable, is_override: bool, c: u32, name: u32, members: &[Member]) -> bool
    ensures { result ≡ list_all (λ m. rows_test (spec.overrides (outlines t.now) is_override) (spec.own_row (outlines t.now) c name) (row_of (outlines t.now) m)) members.now }
{
    members
        .iter()
        .all(|m| overrides_candidate(t, is_override, c, name, *m))
}

fn overrides_all(t: &ClassTable, is_override: bool, c: u32, name: u32, members: &[Member]) -> bool
    ensures { result ≡ spec.overrides_all (outlines t.now) is_override (spec.own_row (outlines t.now) c name) members.now }
{
    match members {
        [] => !is_override,
        [_, ..] => overrides_each(t, is_override, c, name, members),
    }
}

/// Puts in a member that does not fit what it overrides, or overrides nothing.
fn at_override(
    alloc: Global,
    t: &ClassTable,
    c: u32,
    x: Ident,
    modifiers: &[Modifier],
    out: &mut Vec<Finding>,
) -> Result<(), NoMemory>
    requires { c < length t.now }
    ensures { OnOk result (out.new.items ≡ out.old.items ++ spec.overriding (outlines t.now) c x modifiers.now) }
{
    let is_override = is_among(modifiers, ModifierKind::Override);
    let members = candidates(alloc, t, c, x.name)?;
    let fits = overrides_all(t, is_override, c, x.name, &members);
    push_where(out, !fits, Rule::Override, x.span)
}

/// Puts in a member whose name is reserved, or that does not fit what it overrides.
pub(crate) fn at_member_name(
    alloc: Global,
    t: &ClassTable,
    c: u32,
    x: Ident,
    modifiers: &[Modifier],
    out: &mut Vec<Finding>,
) -> Result<(), NoMemory>
    requires { c < length t.now }
    ensures { OnOk result (out.new.items ≡ out.old.items ++ spec.member_name (outlines t.now) c x modifiers.now) }
{
    push_where(out, is_reserved(x.name), Rule::ReservedMember, x.span)?;
    at_override(alloc, t, c, x, modifiers, out)
}
