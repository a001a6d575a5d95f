//! Members in the rows of a table, and candidates that meet: whether they go together, and which of them fits.
ghost use Rattle.std.specs.Prelude.{◌≡◌, ◌<◌, ◌^◌, ◌==◌, ◌&&◌, ◌||◌, ℕ, length, option_copied, position, IfSome, count_by, not, find};
ghost use Rattle.std.specs.List.{list_any, list_all, zip};
ghost use Rattle.kt_model.specs.Classes.{outlines, written, supers};
ghost use Rattle.kt_model.specs.Subtypes.{class_of, is_under};
ghost use Rattle.kt_model.specs.Members as spec;
ghost use Rattle.kt_decl.specs.Marks.{IsRowed};

use kt_model::class_table::{ClassKind, ClassRow, Member, MemberKind, MemberRow, ParamType};
use kt_model::kinds::KtType;

fn same_bool(a: bool, b: bool) -> bool
    ensures { result ≡ spec.same_bool a b }
{
    if a { b } else { !b }
}

fn same_class(a: Option<u32>, b: Option<u32>) -> bool
    ensures { result ≡ spec.same_class a b }
{
    match (a, b) {
        (None, None) => true,
        (Some(a), Some(b)) => a == b,
        _ => false,
    }
}

/// Whether two types are one.
pub fn same_type(a: &KtType, b: &KtType) -> bool
    ensures { result ≡ spec.same_type a.now b.now }
{
    same_class(a.head.class(), b.head.class()) && same_bool(a.nullable, b.nullable)
}

fn same_types(a: &[KtType], b: &[KtType]) -> bool
    ensures { result ≡ spec.same_types a.now b.now }
{
    a.len() == b.len() && pairs_same(a, b)
}

fn pairs_same(a: &[KtType], b: &[KtType]) -> bool
    ensures { result ≡ list_all (λ (t, u). spec.same_type t u) (zip a.now b.now) }
{
    a.iter().zip(b).all(|(x, y)| same_type(x, y))
}

fn same_param(a: &ParamType, b: &ParamType) -> bool
    ensures { result ≡ spec.same_param a.now b.now }
{
    match (a, b) {
        (ParamType::Value(a), ParamType::Value(b)) => same_type(a, b),
        (ParamType::Lambda(ps, r), ParamType::Lambda(qs, s)) => {
            same_types(ps.as_slice(), qs.as_slice()) && same_type(r, s)
        }
        _ => false,
    }
}

fn same_params(a: &[ParamType], b: &[ParamType]) -> bool
    ensures { result ≡ spec.same_params a.now b.now }
{
    a.len() == b.len() && pairs_agree(a, b)
}

fn pairs_agree(a: &[ParamType], b: &[ParamType]) -> bool
    ensures { result ≡ list_all (λ (p, q). spec.same_param p q) (zip a.now b.now) }
{
    a.iter().zip(b).all(|(x, y)| same_param(x, y))
}

/// Whether a class is under another, by the rows.
pub(crate) fn is_class_under(rows: &[ClassRow], low: u32, high: u32) -> bool
    requires { IsRowed rows.now }
    ensures { result ≡ is_under (written (outlines rows.now)) low high }
{
    match rows.get(low as usize) {
        Some(row) => row.above.as_slice().contains(&high),
        None => low == high || high == 0,
    }
}

fn is_head_under(rows: &[ClassRow], low: Option<u32>, high: Option<u32>) -> bool
    requires { IsRowed rows.now }
    ensures { result ≡ spec.is_head_under (outlines rows.now) low high }
{
    match (low, high) {
        (None, _) => true,
        (Some(_), None) => false,
        (Some(low), Some(high)) => is_class_under(rows, low, high),
    }
}

fn is_subtype(rows: &[ClassRow], a: &KtType, b: &KtType) -> bool
    requires { IsRowed rows.now }
    ensures { result ≡ spec.is_subtype (outlines rows.now) a.now b.now }
{
    is_head_under(rows, a.head.class(), b.head.class()) && (b.nullable || !a.nullable)
}

/// Whether a result type is a subtype of another; one that is not known passes.
pub(crate) fn result_fits(rows: &[ClassRow], a: &Option<KtType>, b: &Option<KtType>) -> bool
    requires { IsRowed rows.now }
    ensures { result ≡ spec.result_fits (outlines rows.now) a.now b.now }
{
    match (a, b) {
        (Some(a), Some(b)) => is_subtype(rows, a, b),
        _ => true,
    }
}

pub(crate) fn result_same(a: &Option<KtType>, b: &Option<KtType>) -> bool
    ensures { result ≡ spec.result_same a.now b.now }
{
    match (a, b) {
        (Some(a), Some(b)) => same_type(a, b),
        _ => true,
    }
}

/// The members that a class declares.
pub(crate) fn members_at(rows: &[ClassRow], class: u32) -> &[MemberRow]
    ensures { result.now ≡ spec.members_of (outlines rows.now) class }
{
    match rows.get(class as usize) {
        Some(row) => row.members.as_slice(),
        None => &[],
    }
}

/// The row of a member.
pub(crate) fn row_at(rows: &[ClassRow], m: Member) -> Option<&MemberRow>
    ensures { option_copied result ≡ spec.row_of (outlines rows.now) m }
{
    members_at(rows, m.class).get(m.place as usize)
}

/// The member of that name that a class declares itself.
pub(crate) fn own(rows: &[ClassRow], class: u32, name: u32) -> Option<Member>
    requires { IsRowed rows.now }
    ensures { result ≡ spec.own (outlines rows.now) class name }
{
    match place_of_name(members_at(rows, class), name) {
        Some(place) => Some(Member {
            class,
            place: place as u32,
        }),
        None => None,
    }
}

fn place_of_name(members: &[MemberRow], name: u32) -> Option<usize>
    ensures place { result ≡ position (λ m. m.name == name) members.now }
    ensures within { IfSome result (λ place. place < length members.now) }
{
    members.iter().position(|m| m.name == name)
}

pub(crate) fn is_abstract(kind: MemberKind) -> bool
    ensures { result ≡ spec.is_abstract kind }
{
    match kind {
        MemberKind::AbstractFunction | MemberKind::AbstractProperty => true,
        _ => false,
    }
}

pub(crate) fn is_function(kind: MemberKind) -> bool
    ensures { result ≡ spec.is_function kind }
{
    match kind {
        MemberKind::Function | MemberKind::AbstractFunction => true,
        _ => false,
    }
}

fn is_private_at(rows: &[ClassRow], m: Member) -> bool
    ensures { result ≡ spec.is_private_at (outlines rows.now) m }
{
    match row_at(rows, m) {
        Some(row) => row.is_private,
        None => false,
    }
}

fn is_abstract_at(rows: &[ClassRow], m: Member) -> bool
    ensures { result ≡ spec.is_abstract_at (outlines rows.now) m }
{
    match row_at(rows, m) {
        Some(row) => is_abstract(row.kind),
        None => false,
    }
}

fn is_var_at(rows: &[ClassRow], m: Member) -> bool
    ensures { result ≡ spec.is_var_at (outlines rows.now) m }
{
    match row_at(rows, m) {
        Some(row) => row.is_var,
        None => false,
    }
}

/// Whether two members have one kind and the same parameter types.
pub fn have_one_shape(a: &MemberRow, b: &MemberRow) -> bool
    ensures { result ≡ spec.have_one_shape a.now b.now }
{
    same_bool(is_function(a.kind), is_function(b.kind))
        && same_params(a.params.as_slice(), b.params.as_slice())
}

fn agree_at(rows: &[ClassRow], m: Member, n: Member) -> bool
    ensures { result ≡ spec.agree_at (outlines rows.now) m n }
{
    match (row_at(rows, m), row_at(rows, n)) {
        (Some(a), Some(b)) => have_one_shape(a, b),
        _ => false,
    }
}

fn fits_under(rows: &[ClassRow], m: Member, n: Member) -> bool
    requires { IsRowed rows.now }
    ensures { result ≡ spec.fits_under (outlines rows.now) m n }
{
    match (row_at(rows, m), row_at(rows, n)) {
        (Some(a), Some(b)) => result_fits(rows, &a.result, &b.result),
        _ => false,
    }
}

fn has_type_of(rows: &[ClassRow], m: Member, n: Member) -> bool
    ensures { result ≡ spec.has_type_of (outlines rows.now) m n }
{
    match (row_at(rows, m), row_at(rows, n)) {
        (Some(a), Some(b)) => result_same(&a.result, &b.result),
        _ => false,
    }
}

fn is_interface(rows: &[ClassRow], class: u32) -> bool
    ensures { result ≡ spec.is_interface (outlines rows.now) class }
{
    match rows.get(class as usize) {
        Some(row) => match row.kind {
            ClassKind::Interface => true,
            _ => false,
        },
        None => false,
    }
}

fn has_private(rows: &[ClassRow], members: &[Member]) -> bool
    ensures { result ≡ list_any (spec.is_private_at (outlines rows.now)) members.now }
{
    members.iter().any(|m| is_private_at(rows, *m))
}

fn count_bodies(rows: &[ClassRow], members: &[Member]) -> usize
    ensures { result ≡ count_by (λ m. not (spec.is_abstract_at (outlines rows.now) m)) members.now }
{
    members
        .iter()
        .filter(|m| !is_abstract_at(rows, **m))
        .count()
}

fn has_body_in_interface(rows: &[ClassRow], m: Member) -> bool
    ensures { not result ≡ (spec.is_abstract_at (outlines rows.now) m || not (spec.is_interface (outlines rows.now) m.class)) }
{
    !is_abstract_at(rows, m) && is_interface(rows, m.class)
}

fn bodies_stand_in_classes(rows: &[ClassRow], members: &[Member]) -> bool
    ensures { result ≡ list_all (λ m. spec.is_abstract_at (outlines rows.now) m || not (spec.is_interface (outlines rows.now) m.class)) members.now }
{
    members.iter().all(|m| !has_body_in_interface(rows, *m))
}

fn agrees_with_all(rows: &[ClassRow], members: &[Member], m: Member) -> bool
    ensures { result ≡ list_all (spec.agree_at (outlines rows.now) m) members.now }
{
    members.iter().all(|n| agree_at(rows, m, *n))
}

fn all_agree(rows: &[ClassRow], members: &[Member]) -> bool
    ensures { result ≡ list_all (λ m. list_all (spec.agree_at (outlines rows.now) m) members.now) members.now }
{
    members.iter().all(|m| agrees_with_all(rows, members, *m))
}

fn go_together(rows: &[ClassRow], members: &[Member]) -> bool
    ensures { result ≡ spec.go_together (outlines rows.now) members.now }
{
    !has_private(rows, members)
        && count_bodies(rows, members) <= 1
        && bodies_stand_in_classes(rows, members)
        && all_agree(rows, members)
}

fn fits_under_all(rows: &[ClassRow], members: &[Member], m: Member) -> bool
    requires { IsRowed rows.now }
    ensures { result ≡ list_all (spec.fits_under (outlines rows.now) m) members.now }
{
    members.iter().all(|n| fits_under(rows, m, *n))
}

fn are_abstract(rows: &[ClassRow], members: &[Member]) -> bool
    ensures { result ≡ list_all (spec.is_abstract_at (outlines rows.now)) members.now }
{
    members.iter().all(|m| is_abstract_at(rows, *m))
}

fn has_var(rows: &[ClassRow], members: &[Member]) -> bool
    ensures { result ≡ list_any (spec.is_var_at (outlines rows.now)) members.now }
{
    members.iter().any(|m| is_var_at(rows, *m))
}

fn all_have_type_of(rows: &[ClassRow], members: &[Member], m: Member) -> bool
    ensures { result ≡ list_all (spec.has_type_of (outlines rows.now) m) members.now }
{
    members.iter().all(|n| has_type_of(rows, m, *n))
}

fn have_one_type(rows: &[ClassRow], members: &[Member]) -> bool
    ensures { result ≡ list_all (λ m. list_all (spec.has_type_of (outlines rows.now) m) members.now) members.now }
{
    members.iter().all(|m| all_have_type_of(rows, members, *m))
}

fn is_fitting(rows: &[ClassRow], members: &[Member], m: Member) -> bool
    requires { IsRowed rows.now }
    ensures { result ≡ spec.is_fitting (outlines rows.now) members.now m }
{
    fits_under_all(rows, members, m)
        && (!is_abstract_at(rows, m) || are_abstract(rows, members))
        && (!has_var(rows, members) || (is_var_at(rows, m) && have_one_type(rows, members)))
}

fn first_fitting(rows: &[ClassRow], members: &[Member]) -> Option<Member>
    requires { IsRowed rows.now }
    ensures { result ≡ find (spec.is_fitting (outlines rows.now) members.now) members.now }
{
    members
        .iter()
        .copied()
        .find(|m| is_fitting(rows, members, *m))
}

pub(crate) fn fitting(rows: &[ClassRow], members: &[Member]) -> Option<Member>
    requires { IsRowed rows.now }
    ensures { result ≡ spec.fitting (outlines rows.now) members.now }
{
    if go_together(rows, members) {
        return first_fitting(rows, members);
    }
    None
}

/// What a class has where it declares nothing itself: the one candidate, else the fitting one.
pub(crate) fn inherited(rows: &[ClassRow], members: &[Member]) -> Option<Member>
    requires { IsRowed rows.now }
    ensures { result ≡ spec.inherited (outlines rows.now) members.now }
{
    match members {
        [] => None,
        [m] => Some(*m),
        _ => fitting(rows, members),
    }
}
