//! Laws of the files that tokens are.
ghost use Rattle.std.specs.Prelude.{◌≡◌, ℕ, List, []};
ghost use Rattle.kt_tree.specs.BuiltIn.{with_texts};
ghost use Rattle.kt_tree.specs.Numbering.{HasTokens};
ghost use Rattle.kt_tree.specs.declared.tokens.Tokens.{Tokens};

/// The name table of a text's tokens has each name once, so that a file's table is that of its tokens.
pub fn names_are_kept()
    ensures { (text : List ℕ) (t : Tokens) → HasTokens text t → with_texts [] t.names ≡ t.names }
{}
