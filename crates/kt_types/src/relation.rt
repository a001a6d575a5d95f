//! The subtype relation and the upper bound.
ghost use Rattle.std.specs.Prelude.{◌≡◌, ◌<◌, ◌↔◌, ◌==◌, IsTrue, length, find};
ghost use Rattle.std.specs.List.{list_any};
ghost use Rattle.kt_model.specs.Classes.{outlines, written};
ghost use Rattle.kt_model.specs.Subtypes.{class_of, common_class, joined, upper_of, HasClass, NamesClass, IsHeadUnder, IsSubtype};

use kt_decl::is_sub;
use kt_model::class_table::ClassTable;
use kt_model::kinds::{Head, KtType};

fn is_head_under(t: &ClassTable, low: Option<u32>, high: Option<u32>) -> bool
    requires { HasClass (written (outlines t.now)) low }
    ensures { IsTrue result ↔ IsHeadUnder (written (outlines t.now)) low high }
{
    match (low, high) {
        (None, _) => true,
        (Some(_), None) => false,
        (Some(low), Some(high)) => is_sub(t, low, high),
    }
}

/// Whether each value of the first type is one of the second: Kotlin's subtyping of types without parameters.
pub fn subtype(t: &ClassTable, a: &KtType, b: &KtType) -> bool
    requires { NamesClass (written (outlines t.now)) a.now }
    ensures { IsTrue result ↔ IsSubtype (written (outlines t.now)) a.now b.now }
{
    let is_under = is_head_under(t, a.head.class(), b.head.class());
    is_under && (b.nullable || !a.nullable)
}

/// The first number of the one list that the other has too.
fn first_shared(from: &[u32], among: &[u32]) -> Option<u32>
    ensures { result ≡ find (λ c. list_any (λ d. d == c) among.now) from.now }
{
    from.iter().copied().find(|c| among.contains(c))
}

#[tactic(auto, unfolding(kt_model::specs::Subtypes::common_class))]
fn first_common(t: &ClassTable, a: u32, b: u32) -> u32
    requires first { a < length t.now }
    requires second { b < length t.now }
    ensures { result ≡ common_class (written (outlines t.now)) a b }
{
    let from = t.above(a);
    first_shared(from, t.above(b)).unwrap_or(0)
}

fn join(t: &ClassTable, a: Head, b: Head) -> Head
    requires first { HasClass (written (outlines t.now)) (class_of a) }
    requires second { HasClass (written (outlines t.now)) (class_of b) }
    ensures { result ≡ joined (written (outlines t.now)) a b (class_of a) (class_of b) }
{
    match (a.class(), b.class()) {
        (None, _) => b,
        (Some(_), None) => a,
        (Some(low), Some(high)) => Head::of_class(first_common(t, low, high)),
    }
}

/// The upper bound of two types: its class is the first above the first type's that the second's is under, and it has a `?` where
/// one has. `Nothing` gives the other's.
pub fn upper(t: &ClassTable, a: &KtType, b: &KtType) -> KtType
    requires first { NamesClass (written (outlines t.now)) a.now }
    requires second { NamesClass (written (outlines t.now)) b.now }
    ensures { result ≡ upper_of (written (outlines t.now)) a.now b.now }
{
    KtType {
        head: join(t, a.head, b.head),
        nullable: a.nullable || b.nullable,
    }
}
