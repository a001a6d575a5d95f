//! Subtypes and upper bounds, for every number of a class.
ghost use Rattle.std.specs.Prelude.{◌≡◌, ◌==◌, find};
ghost use Rattle.std.specs.List.{list_any};
ghost use Rattle.kt_model.specs.Classes.{outlines, written};
ghost use Rattle.kt_model.specs.Subtypes as spec;
ghost use Rattle.kt_typing.specs.Typing as typing;

use kt_model::class_table::ClassTable;
use kt_model::kinds::{Head, KtType};

/// Whether a number stands in a list.
fn is_among(class: u32, classes: &[u32]) -> bool
    ensures { result ≡ list_any (λ c. c == class) classes.now }
{
    classes.contains(&class)
}

/// Whether a class is under another. A number that no class has stands for a class under itself and `Any`.
#[tactic(auto, using(crate::proofs::Supers::under_outside))]
fn is_under(table: &ClassTable, low: u32, high: u32) -> bool
    ensures { result ≡ spec.is_under (written (outlines table.now)) low high }
{
    if (low as usize) < table.rows().len() {
        is_among(high, table.above(low))
    } else {
        is_among(high, &[low, 0])
    }
}

fn is_head_under(table: &ClassTable, low: Option<u32>, high: Option<u32>) -> bool
    ensures { result ≡ typing.is_head_under (written (outlines table.now)) low high }
{
    match (low, high) {
        (None, _) => true,
        (Some(_), None) => false,
        (Some(low), Some(high)) => is_under(table, low, high),
    }
}

/// Whether each value of the first type is one of the second.
#[tactic(auto, unfolding(kt_typing::specs::Typing::is_subtype))]
pub fn is_subtype(table: &ClassTable, a: KtType, b: KtType) -> bool
    ensures { result ≡ typing.is_subtype (written (outlines table.now)) a b }
{
    let is_under = is_head_under(table, a.head.class(), b.head.class());
    is_under && (b.nullable || !a.nullable)
}

/// The first of some classes that a class is under.
fn first_over(table: &ClassTable, classes: &[u32], low: u32) -> Option<u32>
    ensures { result ≡ find (λ c. spec.is_under (written (outlines table.now)) low c) classes.now }
{
    classes.iter().copied().find(|c| is_under(table, low, *c))
}

/// The first class above the one, or itself, that the other is under.
#[tactic(auto, unfolding(kt_model::specs::Subtypes::common_class), using(crate::proofs::Supers::common_outside))]
fn first_common(table: &ClassTable, a: u32, b: u32) -> u32
    ensures { result ≡ spec.common_class (written (outlines table.now)) a b }
{
    if (a as usize) < table.rows().len() {
        first_over(table, table.above(a), b).unwrap_or(0)
    } else {
        first_over(table, &[a, 0], b).unwrap_or(0)
    }
}

fn join(table: &ClassTable, a: Head, b: Head) -> Head
    ensures { result ≡ spec.joined (written (outlines table.now)) a b (spec.class_of a) (spec.class_of b) }
{
    match (a.class(), b.class()) {
        (None, _) => b,
        (Some(_), None) => a,
        (Some(low), Some(high)) => Head::of_class(first_common(table, low, high)),
    }
}

/// The upper bound of two types.
pub fn upper(table: &ClassTable, a: KtType, b: KtType) -> KtType
    ensures { result ≡ spec.upper_of (written (outlines table.now)) a b }
{
    KtType {
        head: join(table, a.head, b.head),
        nullable: a.nullable || b.nullable,
    }
}
