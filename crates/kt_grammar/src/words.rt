//! Identifiers that the grammar names.
ghost use Rattle.std.specs.Prelude.{◌≡◌, Some};
ghost use Rattle.kt_tree.specs.Classes as spec;

use kt_table::Table;
use kt_tree::grammar::Terminal as T;

/// The identifiers that the grammar names, by their texts in rising order.
pub static WORDS: [(&str, T); 24] = [
    ("ExperimentalContracts", T::ExperimentalContracts),
    ("InvocationKind", T::InvocationKind),
    ("OptIn", T::OptIn),
    ("abstract", T::Abstract),
    ("callsInPlace", T::CallsInPlace),
    ("catch", T::Catch),
    ("contract", T::Contract),
    ("contracts", T::Contracts),
    ("downTo", T::DownTo),
    ("final", T::Final),
    ("finally", T::Finally),
    ("get", T::Get),
    ("implies", T::Implies),
    ("import", T::Import),
    ("init", T::Init),
    ("inline", T::Inline),
    ("kotlin", T::Kotlin),
    ("open", T::Open),
    ("override", T::Override),
    ("private", T::Private),
    ("public", T::Public),
    ("returns", T::Returns),
    ("returnsNotNull", T::ReturnsNotNull),
    ("until", T::Until),
];

/// The terminal of an identifier with this text.
pub fn word_of(text: &str) -> T
    ensures { result ≡ spec.word_of (Some text.now) }
{
    match Table::<&str, T, 24>::new(&WORDS).find(&text) {
        Some(word) => *word,
        None => T::Id,
    }
}
