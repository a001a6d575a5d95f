//! The operators.
ghost use Rattle.std.specs.Prelude.{◌≡◌, option_map};
ghost use Rattle.std.specs.Str.{chars};
ghost use Rattle.kt_tree.specs.Lexemes as spec;
ghost use Rattle.kt_tree.specs.Words.{is_word_operator};
ghost use Rattle.kt_lex.specs.Operators as table;

use kt_table::Table;
use kt_tree::Kind;

/// An operator, or the quote that opens a string. `as?` is read as a word.
#[derive(Clone, Copy, Debug, PartialEq, Eq)]
pub enum Operator {
    Not,
    NotNull,
    NotEqual,
    NotIn,
    NotIs,
    Open,
    Percent,
    PercentAssign,
    And,
    OpenRound,
    CloseRound,
    Star,
    StarAssign,
    Plus,
    PlusPlus,
    PlusAssign,
    Comma,
    Minus,
    MinusMinus,
    MinusAssign,
    Arrow,
    Dot,
    Range,
    Slash,
    SlashAssign,
    Colon,
    ColonColon,
    Semicolon,
    Less,
    LessEqual,
    Assign,
    Equal,
    Greater,
    GreaterEqual,
    Question,
    SafeDot,
    Elvis,
    At,
    OpenSquare,
    CloseSquare,
    OpenBrace,
    Or,
    CloseBrace,
}

/// The operators, by their texts in rising order.
pub const OPERATORS: [(&str, Operator); 43] = [
    ("!", Operator::Not),
    ("!!", Operator::NotNull),
    ("!=", Operator::NotEqual),
    ("!in", Operator::NotIn),
    ("!is", Operator::NotIs),
    ("\"", Operator::Open),
    ("%", Operator::Percent),
    ("%=", Operator::PercentAssign),
    ("&&", Operator::And),
    ("(", Operator::OpenRound),
    (")", Operator::CloseRound),
    ("*", Operator::Star),
    ("*=", Operator::StarAssign),
    ("+", Operator::Plus),
    ("++", Operator::PlusPlus),
    ("+=", Operator::PlusAssign),
    (",", Operator::Comma),
    ("-", Operator::Minus),
    ("--", Operator::MinusMinus),
    ("-=", Operator::MinusAssign),
    ("->", Operator::Arrow),
    (".", Operator::Dot),
    ("..", Operator::Range),
    ("/", Operator::Slash),
    ("/=", Operator::SlashAssign),
    (":", Operator::Colon),
    ("::", Operator::ColonColon),
    (";", Operator::Semicolon),
    ("<", Operator::Less),
    ("<=", Operator::LessEqual),
    ("=", Operator::Assign),
    ("==", Operator::Equal),
    (">", Operator::Greater),
    (">=", Operator::GreaterEqual),
    ("?", Operator::Question),
    ("?.", Operator::SafeDot),
    ("?:", Operator::Elvis),
    ("@", Operator::At),
    ("[", Operator::OpenSquare),
    ("]", Operator::CloseSquare),
    ("{", Operator::OpenBrace),
    ("||", Operator::Or),
    ("}", Operator::CloseBrace),
];

impl Operator {
    /// The token that the operator is.
    pub fn kind(self) -> Kind
        ensures { result ≡ table.kind_of self }
    {
        match self {
            Operator::Not => Kind::Not,
            Operator::NotNull => Kind::NotNull,
            Operator::NotEqual => Kind::NotEqual,
            Operator::NotIn => Kind::NotIn,
            Operator::NotIs => Kind::NotIs,
            Operator::Open => Kind::Open,
            Operator::Percent => Kind::Percent,
            Operator::PercentAssign => Kind::PercentAssign,
            Operator::And => Kind::And,
            Operator::OpenRound => Kind::OpenRound,
            Operator::CloseRound => Kind::CloseRound,
            Operator::Star => Kind::Star,
            Operator::StarAssign => Kind::StarAssign,
            Operator::Plus => Kind::Plus,
            Operator::PlusPlus => Kind::PlusPlus,
            Operator::PlusAssign => Kind::PlusAssign,
            Operator::Comma => Kind::Comma,
            Operator::Minus => Kind::Minus,
            Operator::MinusMinus => Kind::MinusMinus,
            Operator::MinusAssign => Kind::MinusAssign,
            Operator::Arrow => Kind::Arrow,
            Operator::Dot => Kind::Dot,
            Operator::Range => Kind::Range,
            Operator::Slash => Kind::Slash,
            Operator::SlashAssign => Kind::SlashAssign,
            Operator::Colon => Kind::Colon,
            Operator::ColonColon => Kind::ColonColon,
            Operator::Semicolon => Kind::Semicolon,
            Operator::Less => Kind::Less,
            Operator::LessEqual => Kind::LessEqual,
            Operator::Assign => Kind::Assign,
            Operator::Equal => Kind::Equal,
            Operator::Greater => Kind::Greater,
            Operator::GreaterEqual => Kind::GreaterEqual,
            Operator::Question => Kind::Question,
            Operator::SafeDot => Kind::SafeDot,
            Operator::Elvis => Kind::Elvis,
            Operator::At => Kind::At,
            Operator::OpenSquare => Kind::OpenSquare,
            Operator::CloseSquare => Kind::CloseSquare,
            Operator::OpenBrace => Kind::OpenBrace,
            Operator::Or => Kind::Or,
            Operator::CloseBrace => Kind::CloseBrace,
        }
    }

    /// Whether the operator ends in a word, which no character that continues an identifier may follow.
    pub fn is_word(self) -> bool
        ensures { result ≡ is_word_operator (table.kind_of self) }
    {
        matches!(self, Operator::NotIn | Operator::NotIs)
    }
}

/// The operator that the text is.
pub fn operator_of(text: &str) -> Option<Operator>
    ensures { option_map table.kind_of result ≡ spec.operator_of (chars text.now) }
{
    Table::<&str, Operator, 43>::new(&OPERATORS)
        .find(&text)
        .copied()
}
