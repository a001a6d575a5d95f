//! What each class has under each name.
ghost use Rattle.std.specs.Prelude.{◌≡◌, ◌++◌, ◌<◌, ◌∷◌, ◌==◌, [], ℕ, if◌then◌else◌, IfOk, OnOk, length, map, option_and_then};
ghost use Rattle.std.specs.List.{list_any, flat_map, filter_map, cons_option};
ghost use Rattle.kt_model.specs.Classes.{outlines, written, supers, each_once};
ghost use Rattle.kt_model.specs.Members as spec;
ghost use Rattle.kt_decl.specs.Marks.{IsRowed};

use crate::meeting::{inherited, is_abstract, is_class_under, members_at, own, row_at};
use kt_model::class_table::{ClassRow, Member, MemberRow, Settled};
use kt_tree::NoMemory;
use sqlite_items::Items;
use std::alloc::Global;

/// The class and those above it, in order.
fn above_of(rows: &[ClassRow], class: u32) -> &[u32]
    requires rowed { IsRowed rows.now }
    requires known { class < length rows.now }
    ensures { result.now ≡ supers (written (outlines rows.now)) class }
{
    rows[class as usize].above.as_slice()
}

/// Whether another class e above c declares the name and is under d.
fn is_hidden_by(rows: &[ClassRow], c: u32, name: u32, d: u32, e: u32) -> bool
    requires { IsRowed rows.now }
    ensures { result ≡ spec.is_hidden_by (outlines rows.now) c name d e }
{
    e != c && own(rows, e, name).is_some() && e != d && is_class_under(rows, e, d)
}

fn is_hidden_among(rows: &[ClassRow], above: &[u32], c: u32, name: u32, d: u32) -> bool
    requires { IsRowed rows.now }
    ensures { result ≡ list_any (spec.is_hidden_by (outlines rows.now) c name d) above.now }
{
    above.iter().any(|e| is_hidden_by(rows, c, name, d, *e))
}

/// What the class d above c gives as a candidate.
fn candidate_in(rows: &[ClassRow], c: u32, name: u32, d: u32) -> Option<Member>
    requires rowed { IsRowed rows.now }
    requires known { c < length rows.now }
    ensures { result ≡ spec.candidate_in (outlines rows.now) c name d }
{
    let m = own(rows, d, name)?;
    if d == c || is_hidden_among(rows, above_of(rows, c), c, name, d) {
        return None;
    }
    Some(m)
}

fn push_member(out: &mut Vec<Member>, m: Option<Member>) -> Result<(), NoMemory>
    ensures { OnOk result (out.new.items ≡ out.old.items ++ cons_option m []) }
{
    if let Some(m) = m {
        out.push(m)?;
    }
    Ok(())
}

/// The candidates of a class for a name, in the order of the classes above it.
#[tactic(auto, unfolding(kt_model::specs::Members::candidates))]
pub(crate) fn candidates_in(
    alloc: Global,
    rows: &[ClassRow],
    c: u32,
    name: u32,
) -> Result<Vec<Member>, NoMemory>
    requires rowed { IsRowed rows.now }
    requires known { c < length rows.now }
    ensures { IfOk result (λ members. members.items ≡ spec.candidates (outlines rows.now) c name) }
{
    let mut members = Vec::new(alloc);
    for d in above_of(rows, c) {
        push_member(&mut members, candidate_in(rows, c, name, *d))?;
    }
    Ok(members)
}

/// The member that a class has under a name.
#[tactic(auto, unfolding(kt_model::specs::Members::member_of))]
fn member_under(
    alloc: Global,
    rows: &[ClassRow],
    c: u32,
    name: u32,
) -> Result<Option<Member>, NoMemory>
    requires rowed { IsRowed rows.now }
    requires known { c < length rows.now }
    ensures { IfOk result (λ member. member ≡ spec.member_of (outlines rows.now) c name) }
{
    match own(rows, c, name) {
        Some(m) => Ok(Some(m)),
        None => {
            let members = candidates_in(alloc, rows, c, name)?;
            Ok(inherited(rows, &members))
        }
    }
}

fn unless_abstract(rows: &[ClassRow], m: Member) -> Option<Member>
    ensures { result ≡ spec.unless_abstract (outlines rows.now) m }
{
    match row_at(rows, m) {
        Some(row) if is_abstract(row.kind) => None,
        Some(_) => Some(m),
        None => None,
    }
}

fn implemented(rows: &[ClassRow], m: Option<Member>) -> Option<Member>
    ensures { result ≡ option_and_then (spec.unless_abstract (outlines rows.now)) m }
{
    match m {
        Some(m) => unless_abstract(rows, m),
        None => None,
    }
}

#[tactic(auto, unfolding(kt_model::specs::Members::implementation_of))]
fn settled_under(alloc: Global, rows: &[ClassRow], c: u32, name: u32) -> Result<Settled, NoMemory>
    requires rowed { IsRowed rows.now }
    requires known { c < length rows.now }
    ensures { IfOk result (λ settled. settled ≡ spec.settled_at (outlines rows.now) c name) }
{
    let member = member_under(alloc, rows, c, name)?;
    Ok(Settled {
        name,
        member,
        implementation: implemented(rows, member),
    })
}

fn push_names(names: &mut Vec<u32>, members: &[MemberRow]) -> Result<(), NoMemory>
    ensures { OnOk result (names.new.items ≡ names.old.items ++ map (λ m. m.name) members.now) }
{
    for m in members {
        names.push(m.name)?;
    }
    Ok(())
}

/// The names that a class or one above it declares.
#[tactic(auto, unfolding(kt_model::specs::Members::names_above))]
fn names_above(alloc: Global, rows: &[ClassRow], c: u32) -> Result<Vec<u32>, NoMemory>
    requires rowed { IsRowed rows.now }
    requires known { c < length rows.now }
    ensures { IfOk result (λ names. names.items ≡ spec.names_above (outlines rows.now) c) }
{
    let mut names = Vec::new(alloc);
    for d in above_of(rows, c) {
        push_names(&mut names, members_at(rows, *d))?;
    }
    Ok(names)
}

fn push_new(names: &mut Vec<u32>, name: u32) -> Result<(), NoMemory>
    ensures { OnOk result (names.new.items ≡ names.old.items ++ (if list_any (λ y. y == name) names.old.items then [] else name ∷ [])) }
{
    if !names.contains(&name) {
        names.push(name)?;
    }
    Ok(())
}

fn each_name_once(alloc: Global, names: &[u32]) -> Result<Vec<u32>, NoMemory>
    ensures { IfOk result (λ once. once.items ≡ each_once [] names.now) }
{
    let mut once = Vec::new(alloc);
    for name in names {
        push_new(&mut once, *name)?;
    }
    Ok(once)
}

/// What a class has, under each name once.
#[tactic(auto, unfolding(kt_model::specs::Members::settled_of))]
pub(crate) fn settle_class(
    alloc: Global,
    rows: &[ClassRow],
    c: u32,
) -> Result<Items<Settled>, NoMemory>
    requires rowed { IsRowed rows.now }
    requires known { c < length rows.now }
    ensures { IfOk result (λ settled. settled ≡ spec.settled_of (outlines rows.now) c) }
{
    let names = names_above(alloc, rows, c)?;
    let names = each_name_once(alloc, &names)?;
    let mut settled = Items::new(alloc);
    for name in &names {
        settled.push(settled_under(alloc, rows, c, *name)?)?;
    }
    Ok(settled)
}
