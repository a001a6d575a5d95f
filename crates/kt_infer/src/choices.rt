//! The choices by which a tree gets its type, where its parts have theirs.
ghost use Rattle.std.specs.Prelude.{◌≡◌, ◌&&◌, ◌||◌, ◌++◌, ◌∷◌, [], true, Bool, Option, is_some};
ghost use Rattle.kt_tree.specs.declared.token.Span.{Span};
ghost use Rattle.kt_model.specs.Classes.{outlines, written};
ghost use Rattle.kt_model.specs.BodyTrees as body;
ghost use Rattle.kt_typing.specs.Typing as spec;
ghost use Rattle.kt_infer.specs.Noting as noting;
ghost use Rattle.kt_infer.specs.Opening.{last_type};

use crate::subtypes::{is_subtype, upper};
use kt_model::class_table::ClassTable;
use kt_model::finding::Rule;
use kt_model::kinds::{Head, KtType};
use kt_tree::Span;
use kt_tree::ast::Arithmetic;
use kt_typing::{Claim, Operator, Outcome, Way};

/// `Int`
pub const INT: KtType = KtType {
    head: Head::Int,
    nullable: false,
};

/// `String`
pub const STRING: KtType = KtType {
    head: Head::Str,
    nullable: false,
};

/// `Unit`
pub const UNIT: KtType = KtType {
    head: Head::Unit,
    nullable: false,
};

/// `Boolean`
pub const BOOLEAN: KtType = KtType {
    head: Head::Boolean,
    nullable: false,
};

/// `Nothing`
pub const NOTHING: KtType = KtType {
    head: Head::Nothing,
    nullable: false,
};

/// Whether the value of a tree in its way is taken.
pub fn is_valued(way: Way) -> bool
    ensures { result ≡ noting.is_valued way }
{
    !matches!(way, Way::Unvalued)
}

/// Whether two things hold.
pub fn both(a: bool, b: bool) -> bool
    ensures { result ≡ (a && b) }
{
    a && b
}

/// Whether all parts have types, where those before have.
pub fn still(complete: bool, found: Option<KtType>) -> bool
    ensures { result ≡ (complete && is_some found) }
{
    complete && found.is_some()
}

fn stands_if(fits: bool, d: KtType, at: Span) -> Outcome
    ensures { result ≡ spec.stands_if fits d at }
{
    if fits {
        Outcome::Stands(d)
    } else {
        Outcome::Refused(Rule::Mismatch, at)
    }
}

/// A tree of a type in its way.
pub fn settled(table: &ClassTable, way: Way, d: KtType, at: Span) -> Outcome
    ensures { result ≡ spec.settled (written (outlines table.now)) way d at }
{
    match way {
        Way::Checked(t) => stands_if(is_subtype(table, d, t), d, at),
        _ => Outcome::Stands(d),
    }
}

/// A tree whose parts have types in its way.
pub fn claimed(table: &ClassTable, way: Way, at: Span, claim: Claim) -> Outcome
    ensures { result ≡ spec.claimed (written (outlines table.now)) way at claim }
{
    match claim {
        Claim::Gives(d) => settled(table, way, d, at),
        Claim::Breaks(rule, place) => Outcome::Refused(rule, place),
        Claim::Lacks => Outcome::Untyped,
    }
}

/// A tree in its way.
pub fn outcome(table: &ClassTable, way: Way, at: Span, complete: bool, claim: Claim) -> Outcome
    ensures { result ≡ spec.outcome (written (outlines table.now)) way at complete claim }
{
    if complete {
        claimed(table, way, at, claim)
    } else {
        Outcome::Untyped
    }
}

/// The type that a tree has.
pub fn type_in(outcome: Outcome) -> Option<KtType>
    ensures { result ≡ spec.type_in outcome }
{
    match outcome {
        Outcome::Stands(t) => Some(t),
        _ => None,
    }
}

fn is_string(head: Head) -> bool
    ensures { result ≡ spec.is_string head }
{
    matches!(head, Head::Str)
}

/// Whether a value is a text.
pub fn is_text(found: Option<KtType>) -> bool
    ensures { result ≡ spec.is_text found }
{
    match found {
        Some(t) => is_string(t.head),
        None => false,
    }
}

/// What `+` asks and gives.
pub fn sum_operator(text: bool) -> Operator
    ensures { result ≡ spec.sum_operator text }
{
    if text {
        Operator {
            left: Way::Inferred,
            right: Way::Plain,
            gives: STRING,
        }
    } else {
        Operator {
            left: Way::Checked(INT),
            right: Way::Checked(INT),
            gives: INT,
        }
    }
}

/// What another operator asks and gives, where it is open.
pub fn arithmetic_operator(operator: Arithmetic) -> Option<Operator>
    ensures { (text : Bool) → spec.operator_of (body.Arithmetic' operator) text ≡ result }
{
    match operator {
        Arithmetic::Subtract | Arithmetic::Multiply | Arithmetic::Divide | Arithmetic::Remainder =>
            Some(sum_operator(false)),
    }
}

/// Whether no value is of both types' heads.
fn are_apart(a: Head, b: Head) -> bool
    ensures { result ≡ spec.are_apart a b }
{
    match a {
        Head::Int => matches!(b, Head::Boolean | Head::Str),
        Head::Boolean => matches!(b, Head::Int | Head::Str),
        Head::Str => matches!(b, Head::Int | Head::Boolean),
        _ => false,
    }
}

/// Whether the declared types of two operands are apart.
pub fn apart(left: Option<KtType>, right: Option<KtType>) -> bool
    ensures { result ≡ spec.apart (left ∷ right ∷ []) }
{
    match (left, right) {
        (Some(a), Some(b)) => are_apart(a.head, b.head),
        _ => false,
    }
}

/// What an equality is, by whether its operands are apart.
pub fn equality_claim(apart: bool, span: Span) -> Claim
    ensures { (n : body.Mark) → n.span ≡ span → result ≡ (spec.equality_demand apart (spec.demand_if true n (spec.Each Way.Plain) spec.boolean) n).claim }
{
    if apart {
        Claim::Breaks(Rule::Equality, span)
    } else {
        Claim::Gives(BOOLEAN)
    }
}

/// The way of what the branches of an `if` end in.
pub fn branch_way(way: Way) -> Way
    ensures { result ≡ spec.branch_way way }
{
    match way {
        Way::Checked(t) => Way::Checked(t),
        _ => Way::Inferred,
    }
}

fn joined_type(table: &ClassTable, way: Way, first: KtType, second: KtType) -> KtType
    ensures { result ≡ spec.joined_type (written (outlines table.now)) way first second }
{
    match way {
        Way::Checked(t) => t,
        _ => upper(table, first, second),
    }
}

/// What an `if` is, by the types of what its branches end in.
pub fn joined_claim(
    table: &ClassTable,
    way: Way,
    span: Span,
    first: Option<Option<KtType>>,
    second: Option<Option<KtType>>,
) -> Claim
    ensures { (n : body.Mark) → n.span ≡ span → result ≡ spec.joined_claim (written (outlines table.now)) way n (last_type first) (last_type second) }
{
    match (first, second) {
        (Some(Some(a)), Some(Some(b))) => Claim::Gives(joined_type(table, way, a, b)),
        (Some(_), Some(_)) => Claim::Lacks,
        _ => Claim::Breaks(Rule::Syntax, span),
    }
}

/// Whether a condition, where it has a type, and the ends of two branches have types.
pub fn joined_complete(
    condition: bool,
    first: Option<Option<KtType>>,
    second: Option<Option<KtType>>,
) -> bool
    ensures { result ≡ (condition && spec.have_types (last_type first ++ last_type second)) }
{
    match (first, second) {
        (Some(None), _) => false,
        (_, Some(None)) => false,
        _ => condition,
    }
}

/// Whether a tree is of type `Nothing`.
fn is_nothing(found: Option<KtType>) -> bool
    ensures { result ≡ spec.has_nothing (found ∷ []) }
{
    match found {
        Some(t) => matches!(t.head, Head::Nothing) && !t.nullable,
        None => false,
    }
}

/// Whether one of the trees is of type `Nothing`, by whether one before the last is.
pub fn nothing_so_far(nothing: bool, found: Option<KtType>) -> bool
    ensures { result ≡ (nothing || spec.has_nothing (found ∷ [])) }
{
    nothing || is_nothing(found)
}

/// The way of an operator's left operand.
pub fn left_way(operator: Option<Operator>) -> Way
    ensures { result ≡ spec.left_way operator }
{
    match operator {
        Some(o) => o.left,
        None => Way::Inferred,
    }
}

/// The way of an operator's right operand.
pub fn right_way(operator: Option<Operator>) -> Way
    ensures { result ≡ spec.right_way operator }
{
    match operator {
        Some(o) => o.right,
        None => Way::Inferred,
    }
}

/// What a name that is read is.
pub fn name_claim(word: Span, local: Option<Option<KtType>>) -> Claim
    ensures { result ≡ spec.name_claim word local }
{
    match local {
        None => Claim::Breaks(Rule::UnknownName, word),
        Some(None) => Claim::Lacks,
        Some(Some(d)) => Claim::Gives(d),
    }
}

/// The way of a value that is kept.
pub fn value_way(t: Option<KtType>) -> Way
    ensures { result ≡ spec.value_way t }
{
    match t {
        Some(t) => Way::Checked(t),
        None => Way::Inferred,
    }
}

/// The type of a local, if it has one.
pub fn type_or_none(local: Option<Option<KtType>>) -> Option<KtType>
    ensures { result ≡ spec.type_or_none local }
{
    match local {
        None => None,
        Some(t) => t,
    }
}

/// What an assignment is.
pub fn assign_claim(word: Span, local: Option<Option<KtType>>) -> Claim
    ensures { result ≡ spec.assign_claim word local }
{
    match local {
        None => Claim::Breaks(Rule::UnknownName, word),
        Some(_) => Claim::Gives(UNIT),
    }
}

/// Whether a type is `Unit`.
pub fn is_unit(t: KtType) -> bool
    ensures { result ≡ spec.is_unit t }
{
    matches!(t.head, Head::Unit) && !t.nullable
}

fn unit_if(fits: bool, span: Span) -> Claim
    ensures { (n : body.Mark) → n.span ≡ span → result ≡ spec.unit_if fits n }
{
    if fits {
        Claim::Gives(NOTHING)
    } else {
        Claim::Breaks(Rule::Mismatch, span)
    }
}

/// What a `return` without a value is in a function with this result.
pub fn bare_return(gives: Option<KtType>, span: Span) -> Claim
    ensures { (n : body.Mark) → n.span ≡ span → result ≡ spec.bare_return gives n }
{
    match gives {
        None => Claim::Gives(NOTHING),
        Some(t) => unit_if(is_unit(t), span),
    }
}

/// The type of a local before its initialiser.
pub fn known_type(local: Option<Option<KtType>>, written: Option<KtType>) -> Option<KtType>
    ensures { result ≡ spec.known_type local written }
{
    match local {
        Some(t) => t,
        None => written,
    }
}

fn kept(outcome: Outcome) -> Claim
    ensures { result ≡ spec.kept outcome }
{
    match outcome {
        Outcome::Stands(_) => Claim::Gives(UNIT),
        Outcome::Refused(rule, at) => Claim::Breaks(rule, at),
        Outcome::Untyped => Claim::Lacks,
    }
}

/// What a value that is made is, where a local keeps it.
pub fn kept_claim(table: &ClassTable, at: Span, made: KtType, local: Option<KtType>) -> Claim
    ensures { (n : body.Mark) → n.span ≡ at → result ≡ spec.kept_claim (written (outlines table.now)) n made local }
{
    match local {
        None => Claim::Lacks,
        Some(t) => kept(settled(table, Way::Checked(t), made, at)),
    }
}
