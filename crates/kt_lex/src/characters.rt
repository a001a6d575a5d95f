//! The classes of characters.
ghost use Rattle.std.specs.Prelude.{◌≡◌};
ghost use Rattle.unicode.specs.GeneralCategory.{general_category};
ghost use Rattle.kt_tree.specs.Characters as spec;

use unicode::properties::GeneralCategory;

/// Whether the character begins an identifier.
#[inline]
#[tactic(auto, unfolding(kt_tree::specs::Characters::begins_name))]
pub fn begins_name(c: char) -> bool
    ensures { result ≡ spec.begins_name c }
{
    c == '_' || is_letter(c)
}

/// Whether the character continues an identifier.
#[inline]
#[tactic(auto, unfolding(kt_tree::specs::Characters::continues_name))]
pub fn continues_name(c: char) -> bool
    ensures { result ≡ spec.continues_name c }
{
    c == '_' || is_letter_or_digit(c)
}

#[inline]
#[tactic(auto, using(crate::proofs::NameCharacters::ascii))]
fn is_letter(c: char) -> bool
    ensures { result ≡ spec.is_letter (general_category c) }
{
    if c.is_ascii() {
        c.is_ascii_alphabetic()
    } else {
        is_letter_category(GeneralCategory::for_char(c))
    }
}

#[inline]
#[tactic(auto, using(crate::proofs::NameCharacters::ascii))]
fn is_letter_or_digit(c: char) -> bool
    ensures { result ≡ spec.is_letter_or_digit (general_category c) }
{
    if c.is_ascii() {
        c.is_ascii_alphanumeric()
    } else {
        is_letter_or_digit_category(GeneralCategory::for_char(c))
    }
}

fn is_letter_category(category: GeneralCategory) -> bool
    ensures { result ≡ spec.is_letter category }
{
    matches!(
        category,
        GeneralCategory::UppercaseLetter
            | GeneralCategory::LowercaseLetter
            | GeneralCategory::TitlecaseLetter
            | GeneralCategory::ModifierLetter
            | GeneralCategory::OtherLetter
            | GeneralCategory::LetterNumber
    )
}

fn is_letter_or_digit_category(category: GeneralCategory) -> bool
    ensures { result ≡ spec.is_letter_or_digit category }
{
    matches!(category, GeneralCategory::DecimalNumber) || is_letter_category(category)
}

/// Whether the character is a space, a tab or a form feed.
#[inline]
pub fn is_space(c: char) -> bool
    ensures { result ≡ spec.is_space c }
{
    c == ' ' || c == '\t' || c == '\u{c}'
}

/// Whether the character ends a line.
#[inline]
pub fn is_line_end(c: char) -> bool
    ensures { result ≡ spec.is_line_end c }
{
    c == '\n' || c == '\r'
}
