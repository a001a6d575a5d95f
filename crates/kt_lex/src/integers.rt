//! Integers.
ghost use Rattle.std.specs.Prelude.{◌≡◌, ◌<◌, ◌≤◌};
ghost use Rattle.std.specs.Str.{chars};
ghost use Rattle.kt_lex.specs.Steps as steps;
ghost use Rattle.kt_tree.specs.Integers as spec;

use kt_tree::text::{first, split_first};

/// The value of an integer.
pub fn integer(text: &str) -> Option<u32>
    ensures { result ≡ spec.integer (chars text.now) }
{
    let (c, rest) = split_first(text)?;
    let Some((d, digits_after)) = split_first(rest) else {
        return digits(10, text);
    };
    if c != '0' {
        digits(10, text)
    } else if d == 'x' || d == 'X' {
        digits(16, digits_after)
    } else if d == 'b' || d == 'B' {
        digits(2, digits_after)
    } else {
        None
    }
}

/// The value of digits with `_` between them.
fn digits(base: u32, text: &str) -> Option<u32>
    requires low { 2 ≤ base }
    requires high { base ≤ 16 }
    ensures { result ≡ spec.digits base (chars text.now) }
{
    if !first(text).is_digit(base) {
        return None;
    }
    let mut rest = text;
    let mut value = 0;
    let mut ends_in_digit = false;
    'digits: while let Some((c, after)) = split_first(rest) {
        value = push_digit(base, value, c)?;
        ends_in_digit = c != '_';
        rest = after;
    }
    if ends_in_digit { Some(value) } else { None }
}

/// The value with one more digit.
fn push_digit(base: u32, value: u32, c: char) -> Option<u32>
    requires low { 2 ≤ base }
    requires high { base ≤ 16 }
    requires limit { value < spec.integer_limit }
    ensures { result ≡ steps.push_digit base value c }
{
    if c == '_' {
        return Some(value);
    }
    let digit = c.to_digit(base)?;
    let more = u64::from(value) * u64::from(base) + u64::from(digit);
    if more < 2147483648 {
        Some(more as u32)
    } else {
        None
    }
}
