//! The hard keywords.
ghost use Rattle.std.specs.Prelude.{◌≡◌, option_map};
ghost use Rattle.std.specs.Str.{chars};
ghost use Rattle.kt_tree.specs.Lexemes as spec;
ghost use Rattle.kt_lex.specs.Keywords as table;

use kt_table::Table;
use kt_tree::Kind;

/// A hard keyword.
#[derive(Clone, Copy, Debug, PartialEq, Eq)]
pub enum Keyword {
    As,
    Break,
    Class,
    Continue,
    Do,
    Else,
    False,
    For,
    Fun,
    If,
    In,
    Interface,
    Is,
    Null,
    Object,
    Package,
    Return,
    Super,
    This,
    Throw,
    True,
    Try,
    Typealias,
    Typeof,
    Val,
    Var,
    When,
    While,
}

/// The hard keywords, by their texts in rising order.
pub const KEYWORDS: [(&str, Keyword); 28] = [
    ("as", Keyword::As),
    ("break", Keyword::Break),
    ("class", Keyword::Class),
    ("continue", Keyword::Continue),
    ("do", Keyword::Do),
    ("else", Keyword::Else),
    ("false", Keyword::False),
    ("for", Keyword::For),
    ("fun", Keyword::Fun),
    ("if", Keyword::If),
    ("in", Keyword::In),
    ("interface", Keyword::Interface),
    ("is", Keyword::Is),
    ("null", Keyword::Null),
    ("object", Keyword::Object),
    ("package", Keyword::Package),
    ("return", Keyword::Return),
    ("super", Keyword::Super),
    ("this", Keyword::This),
    ("throw", Keyword::Throw),
    ("true", Keyword::True),
    ("try", Keyword::Try),
    ("typealias", Keyword::Typealias),
    ("typeof", Keyword::Typeof),
    ("val", Keyword::Val),
    ("var", Keyword::Var),
    ("when", Keyword::When),
    ("while", Keyword::While),
];

impl Keyword {
    /// The token that the keyword is.
    pub fn kind(self) -> Kind
        ensures { result ≡ table.kind_of self }
    {
        match self {
            Keyword::As => Kind::As,
            Keyword::Break => Kind::Break,
            Keyword::Class => Kind::Class,
            Keyword::Continue => Kind::Continue,
            Keyword::Do => Kind::Do,
            Keyword::Else => Kind::Else,
            Keyword::False => Kind::False,
            Keyword::For => Kind::For,
            Keyword::Fun => Kind::Fun,
            Keyword::If => Kind::If,
            Keyword::In => Kind::In,
            Keyword::Interface => Kind::Interface,
            Keyword::Is => Kind::Is,
            Keyword::Null => Kind::Null,
            Keyword::Object => Kind::Object,
            Keyword::Package => Kind::Package,
            Keyword::Return => Kind::Return,
            Keyword::Super => Kind::Super,
            Keyword::This => Kind::This,
            Keyword::Throw => Kind::Throw,
            Keyword::True => Kind::True,
            Keyword::Try => Kind::Try,
            Keyword::Typealias => Kind::Typealias,
            Keyword::Typeof => Kind::Typeof,
            Keyword::Val => Kind::Val,
            Keyword::Var => Kind::Var,
            Keyword::When => Kind::When,
            Keyword::While => Kind::While,
        }
    }
}

/// The hard keyword that the text is.
pub fn keyword_of(word: &str) -> Option<Keyword>
    ensures { option_map table.kind_of result ≡ spec.keyword_of (chars word.now) }
{
    Table::<&str, Keyword, 28>::new(&KEYWORDS)
        .find(&word)
        .copied()
}
