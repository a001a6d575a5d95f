//! Laws of the written rules: a source has at most one verdict.
ghost use Rattle.std.specs.Prelude.{◌≡◌, ℕ, List};
ghost use Rattle.kt_tree.specs.declared.ast.declaration.File.{File};
ghost use Rattle.kt_model.specs.NameUses.{Resolved};
ghost use Rattle.kt_model.specs.declared.finding.Finding.{Finding};
ghost use Rattle.kt_check.specs.Violations.{IsFirstFinding, IsAccepted};

use kt_source::laws::files_are_determined;

/// A source has at most one first finding.
pub fn one_finding()
    ensures { (source : List ℕ) (f g : Finding) → IsFirstFinding source f → IsFirstFinding source g → f ≡ g }
{}

/// No source is both accepted and refused.
pub fn never_both()
    ensures { (source : List ℕ) (f : Finding) (file : File) (uses : Resolved) → IsFirstFinding source f → IsAccepted source file uses → ⊥ }
{}

/// An accepted source has one file, and its names stand for one thing each.
pub fn one_accepted()
    ensures file { (source : List ℕ) (a b : File) (u v : Resolved) → IsAccepted source a u → IsAccepted source b v → a ≡ b }
    ensures uses { (source : List ℕ) (a b : File) (u v : Resolved) → IsAccepted source a u → IsAccepted source b v → u ≡ v }
{
    files_are_determined();
}
