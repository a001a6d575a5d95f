//! Steps over a text. Clauses see a text as its characters.
ghost use Rattle.std.specs.Prelude.{◌≡◌, ◌+◌, ◌<◌, ◌≤◌, ◌++◌, [], ◌∷◌, length, encode_utf8, option_map, IfSome, IfNone};
ghost use Rattle.std.specs.Char.{len_utf8};
ghost use Rattle.std.specs.Str.{chars};
ghost use Rattle.kt_tree.specs.Text as spec;

/// The first character and what follows it, `None` for an empty text.
#[inline]
pub fn split_first(s: &str) -> Option<(char, &str)>
    ensures some { IfSome result (λ p. chars s.now ≡ p.0 ∷ chars p.1.now) }
    ensures none { IfNone result (chars s.now ≡ []) }
    ensures bytes { IfSome result (λ p. s.now ≡ encode_utf8 p.0 ++ p.1.now) }
    ensures lens { IfSome result (λ p. length s.now ≡ len_utf8 p.0 + length p.1.now) }
{
    let mut rest = s.chars();
    match rest.next() {
        Some(c) => Some((c, rest.as_str())),
        None => None,
    }
}

/// The first character, or U+0000 for an empty text.
#[inline]
pub fn first(s: &str) -> char
    ensures { result ≡ spec.first (chars s.now) }
{
    match s.chars().next() {
        Some(c) => c,
        None => '\0',
    }
}

/// What follows the first character; an empty text for an empty one.
pub fn after_first(s: &str) -> &str
    ensures { chars result.now ≡ spec.after_first (chars s.now) }
{
    match split_first(s) {
        Some((_, rest)) => rest,
        None => s,
    }
}

/// The text without one U+FEFF at its start.
pub fn without_mark(s: &str) -> &str
    ensures characters { chars result.now ≡ spec.without_mark (chars s.now) }
    ensures lens { length result.now ≤ length s.now }
{
    match split_first(s) {
        Some((c, rest)) if c == '\u{feff}' => rest,
        _ => s,
    }
}
