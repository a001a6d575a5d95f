//! What holds of every source. Each law is the contract of a function that does nothing.
ghost use Rattle.std.specs.Prelude.{◌≡◌, ℕ, List};
ghost use Rattle.kt_tree.specs.declared.ast.declaration.File.{File};
ghost use Rattle.kt_model.specs.declared.finding.Finding.{Finding};
ghost use Rattle.kt_source.specs.SourceRules.{HasFile, IsSourceViolated};

/// A source has at most one file, at most one finding of these rules, and not both.
pub fn files_are_determined()
    ensures one_file { (source : List ℕ) (a b : File) → HasFile source a → HasFile source b → a ≡ b }
    ensures one_finding { (source : List ℕ) (p q : ℕ) (f g : Finding) → IsSourceViolated source p f → IsSourceViolated source q g → (p ≡ q) × (f ≡ g) }
    ensures not_both { (source : List ℕ) (file : File) (p : ℕ) (f : Finding) → HasFile source file → IsSourceViolated source p f → ⊥ }
{}
