//! The tokens of a source.
ghost use Rattle.std.specs.Prelude.{◌≤◌, length, IsTrue};
ghost use Rattle.kt_tree.specs.TokenLists.{ends_once};

use crate::names::Names;
use crate::token::Token;
use sqlite_items::Items;

/// The tokens of a source, at most 1,048,577 of them, and the names that they use. `End` is the last token and
/// stands nowhere else.
#[derive(Drop)]
pub struct Tokens {
    pub list: Items<Token>,
    pub names: Names,
    ghost few: { length list ≤ 1048577 },
    ghost ended: { IsTrue (ends_once list) },
}
