//! What holds of the tokens of every text, in the subject's own words. Each law is the contract of a function that
//! does nothing.
ghost use Rattle.std.specs.Prelude.{◌≡◌, ℕ, List, [], ◌⊎◌};
ghost use Rattle.std.specs.Str.{chars, IsUtf8, IsCharBoundary};
ghost use Rattle.kt_tree.specs.Layout.{AtCharacters, Lies, Rise};
ghost use Rattle.kt_tree.specs.Text.{without_mark};
ghost use Rattle.kt_tree.specs.Tokens.{Lexed, AreTokens, IsBadPlace};

/// The tokens of a text lie in it one after another, and what lies between them is blank or a comment; none of them
/// could be longer. Their spans rise and do not overlap.
pub fn tokens_lie_in_the_text()
    ensures lie { (text : List ℕ) (ts : List Lexed) → AreTokens text ts → Lies text [] (without_mark text) ts }
    ensures rise { (text : List ℕ) (ts : List Lexed) → AreTokens text ts → Rise 0 ts }
{}

/// A text has tokens or a bad place, not both, and no two of either.
pub fn tokens_are_determined()
    ensures some { (text : List ℕ) → ((ts : List Lexed) × AreTokens text ts) ⊎ ((start : ℕ) × (end : ℕ) × IsBadPlace text start end) }
    ensures one_list { (text : List ℕ) (ts us : List Lexed) → AreTokens text ts → AreTokens text us → ts ≡ us }
    ensures one_start { (text : List ℕ) (a b c d : ℕ) → IsBadPlace text a b → IsBadPlace text c d → a ≡ c }
    ensures one_end { (text : List ℕ) (a b c d : ℕ) → IsBadPlace text a b → IsBadPlace text c d → b ≡ d }
    ensures not_both { (text : List ℕ) (ts : List Lexed) (start end : ℕ) → AreTokens text ts → IsBadPlace text start end → ⊥ }
{}

/// The spans of tokens and of bad places begin and end at characters of the text, or at its end.
pub fn spans_are_at_characters()
    ensures tokens { (text : List ℕ) (ts : List Lexed) → IsUtf8 text → AreTokens (chars text) ts → AtCharacters text ts }
    ensures start { (text : List ℕ) (a b : ℕ) → IsUtf8 text → IsBadPlace (chars text) a b → IsCharBoundary text a }
    ensures end { (text : List ℕ) (a b : ℕ) → IsUtf8 text → IsBadPlace (chars text) a b → IsCharBoundary text b }
{}
