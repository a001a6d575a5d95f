//! The kinds of tokens, with the numbers of their names.
ghost use Rattle.std.specs.Prelude.{◌≡◌, ◌<◌, ◌≤◌, ◌+◌, length, IfOk, OnOk};
ghost use Rattle.std.specs.Str.{chars, encode_utf8_all};
ghost use Rattle.kt_tree.specs.Names.{place_of, with_text};
ghost use Rattle.kt_tree.specs.Numbering as spec;
ghost use Rattle.kt_lex.specs.Reading.{lexeme_of};

use crate::words::Word;
use kt_tree::{Kind, Names, NoMemory};
use sqlite_items::Items;
use std::alloc::Global;

/// The token's kind. A name that is new goes last in the table. `NoMemory` where none is left.
pub fn kind_of(alloc: Global, names: &mut Names, word: Word<'_>) -> Result<Kind, NoMemory>
    requires { length names.old < 4294967295 }
    ensures kind { IfOk result (λ k. k ≡ spec.kind_of names.old (lexeme_of word.entry)) }
    ensures names { OnOk result (names.new ≡ spec.with_name names.old (lexeme_of word.entry)) }
    ensures len { OnOk result (length names.new ≤ length names.old + 1) }
{
    match word {
        Word::Fixed(kind) => Ok(kind),
        Word::Name(name) => Ok(Kind::Id(number(alloc, names, name)?)),
        Word::ReturnAt(name) => Ok(Kind::ReturnAt(number(alloc, names, name)?)),
        Word::Number(value) => Ok(Kind::Int(value)),
        Word::Piece(value) => Ok(Kind::Text(Items::from_vec(value.into_bytes()))),
        Word::NamePart(name) => Ok(Kind::NamePart(number(alloc, names, name)?)),
    }
}

/// The name's number, as its characters say it.
fn number(alloc: Global, names: &mut Names, name: &str) -> Result<u32, NoMemory>
    requires { length names.old < 4294967295 }
    ensures number { IfOk result (λ n. n ≡ place_of names.old (encode_utf8_all (chars name.now))) }
    ensures names { OnOk result (names.new ≡ with_text names.old (encode_utf8_all (chars name.now))) }
    ensures len { OnOk result (length names.new ≤ length names.old + 1) }
{
    names.number(alloc, name)
}
