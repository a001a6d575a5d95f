//! Terminals: what a token is to the grammar.

/// What a token is, without what it holds. An identifier that the grammar names has a terminal of its own.
#[derive(Clone, Copy, Debug, PartialEq, Eq)]
pub enum Terminal {
    As,
    Break,
    Class,
    Continue,
    Do,
    Else,
    False,
    For,
    Fun,
    If,
    In,
    Interface,
    Is,
    Null,
    Object,
    Package,
    Return,
    Super,
    This,
    Throw,
    True,
    Try,
    Typealias,
    Typeof,
    Val,
    Var,
    When,
    While,
    /// `as?`
    AsSafe,
    /// `!is`
    NotIs,
    /// `!in`
    NotIn,
    OpenRound,
    CloseRound,
    OpenBrace,
    CloseBrace,
    OpenSquare,
    CloseSquare,
    Dot,
    Comma,
    Semicolon,
    Colon,
    ColonColon,
    Assign,
    Equal,
    NotEqual,
    Less,
    Greater,
    LessEqual,
    GreaterEqual,
    Plus,
    Minus,
    Star,
    Slash,
    Percent,
    Not,
    /// `!!`
    NotNull,
    And,
    Or,
    Question,
    /// `?.`
    SafeDot,
    /// `?:`
    Elvis,
    /// `..`
    Range,
    Arrow,
    PlusAssign,
    MinusAssign,
    StarAssign,
    SlashAssign,
    PercentAssign,
    PlusPlus,
    MinusMinus,
    At,
    /// An identifier without a meaning of its own in its place.
    Id,
    /// `return@name`
    ReturnAt,
    Int,
    /// The quote that opens a string.
    OpenString,
    /// The text of a piece of a string.
    TextPart,
    /// `$name` in a string
    NamePart,
    /// `$this` in a string
    ThisPart,
    /// `${` in a string
    ExprPart,
    /// The quote that closes a string.
    CloseString,
    End,
    /// `else` before `->`
    ElseArrow,
    Import,
    Kotlin,
    Contracts,
    ExperimentalContracts,
    OptIn,
    Public,
    Private,
    Open,
    Abstract,
    Final,
    Override,
    Inline,
    Init,
    Get,
    Until,
    DownTo,
    Catch,
    Finally,
    Contract,
    Returns,
    ReturnsNotNull,
    CallsInPlace,
    InvocationKind,
    Implies,
}

/// What a choice looks at: the next token's terminal, whether a line end counts before it, and whether the token after it
/// is `->`, `,` or `:`.
#[derive(Clone, Copy, Debug, PartialEq, Eq)]
pub struct Class {
    pub terminal: Terminal,
    pub fresh: bool,
    pub leads: bool,
}
