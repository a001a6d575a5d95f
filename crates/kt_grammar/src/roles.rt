//! What terminals are to the choices of the grammar, besides themselves.
ghost use Rattle.std.specs.Prelude.{◌≡◌};
ghost use Rattle.kt_tree.specs.Classes as spec;
ghost use Rattle.kt_grammar.specs.Roles as roles;

use kt_tree::grammar::Terminal as T;

/// What a terminal is to the choices of the grammar.
#[derive(Clone, Copy)]
pub enum Role {
    /// An identifier, whatever follows it.
    Identifier,
    /// A word that may stand before a declaration.
    Modifier,
    /// A word that has a meaning only before `{`.
    BeforeBrace,
    /// A word that has a meaning only before `(`.
    BeforeRound,
    /// No identifier, and an expression may begin with it.
    Expression,
    /// None of these.
    Other,
}

impl Role {
    /// Whether it may stand before a declaration.
    fn is_modifier(self) -> bool
        ensures { result ≡ roles.modifies self }
    {
        matches!(self, Role::Modifier)
    }

    /// Whether it has a meaning only before `{`.
    fn wants_brace(self) -> bool
        ensures { result ≡ roles.before_brace self }
    {
        matches!(self, Role::BeforeBrace)
    }

    /// Whether it has a meaning only before `(`.
    fn wants_round(self) -> bool
        ensures { result ≡ roles.before_round self }
    {
        matches!(self, Role::BeforeRound)
    }

    /// Whether it is an identifier.
    fn is_identifier(self) -> bool
        ensures { result ≡ roles.identifies self }
    {
        !matches!(self, Role::Expression | Role::Other)
    }

    /// Whether an expression may begin with it.
    fn begins_expression(self) -> bool
        ensures { result ≡ roles.begins self }
    {
        !matches!(self, Role::Other)
    }
}

/// The terminals in order, and what each is to choices.
static ROLES: [(T, Role); 106] = [
    (T::As, Role::Other),
    (T::Break, Role::Expression),
    (T::Class, Role::Other),
    (T::Continue, Role::Expression),
    (T::Do, Role::Other),
    (T::Else, Role::Other),
    (T::False, Role::Expression),
    (T::For, Role::Other),
    (T::Fun, Role::Other),
    (T::If, Role::Expression),
    (T::In, Role::Other),
    (T::Interface, Role::Other),
    (T::Is, Role::Other),
    (T::Null, Role::Expression),
    (T::Object, Role::Other),
    (T::Package, Role::Other),
    (T::Return, Role::Expression),
    (T::Super, Role::Other),
    (T::This, Role::Expression),
    (T::Throw, Role::Expression),
    (T::True, Role::Expression),
    (T::Try, Role::Expression),
    (T::Typealias, Role::Other),
    (T::Typeof, Role::Other),
    (T::Val, Role::Other),
    (T::Var, Role::Other),
    (T::When, Role::Expression),
    (T::While, Role::Other),
    (T::AsSafe, Role::Other),
    (T::NotIs, Role::Other),
    (T::NotIn, Role::Other),
    (T::OpenRound, Role::Expression),
    (T::CloseRound, Role::Other),
    (T::OpenBrace, Role::Other),
    (T::CloseBrace, Role::Other),
    (T::OpenSquare, Role::Other),
    (T::CloseSquare, Role::Other),
    (T::Dot, Role::Other),
    (T::Comma, Role::Other),
    (T::Semicolon, Role::Other),
    (T::Colon, Role::Other),
    (T::ColonColon, Role::Other),
    (T::Assign, Role::Other),
    (T::Equal, Role::Other),
    (T::NotEqual, Role::Other),
    (T::Less, Role::Other),
    (T::Greater, Role::Other),
    (T::LessEqual, Role::Other),
    (T::GreaterEqual, Role::Other),
    (T::Plus, Role::Expression),
    (T::Minus, Role::Expression),
    (T::Star, Role::Other),
    (T::Slash, Role::Other),
    (T::Percent, Role::Other),
    (T::Not, Role::Expression),
    (T::NotNull, Role::Other),
    (T::And, Role::Other),
    (T::Or, Role::Other),
    (T::Question, Role::Other),
    (T::SafeDot, Role::Other),
    (T::Elvis, Role::Other),
    (T::Range, Role::Other),
    (T::Arrow, Role::Other),
    (T::PlusAssign, Role::Other),
    (T::MinusAssign, Role::Other),
    (T::StarAssign, Role::Other),
    (T::SlashAssign, Role::Other),
    (T::PercentAssign, Role::Other),
    (T::PlusPlus, Role::Other),
    (T::MinusMinus, Role::Other),
    (T::At, Role::Other),
    (T::Id, Role::Identifier),
    (T::ReturnAt, Role::Expression),
    (T::Int, Role::Expression),
    (T::OpenString, Role::Expression),
    (T::TextPart, Role::Other),
    (T::NamePart, Role::Other),
    (T::ThisPart, Role::Other),
    (T::ExprPart, Role::Other),
    (T::CloseString, Role::Other),
    (T::End, Role::Other),
    (T::ElseArrow, Role::Other),
    (T::Import, Role::Identifier),
    (T::Kotlin, Role::Identifier),
    (T::Contracts, Role::Identifier),
    (T::ExperimentalContracts, Role::Identifier),
    (T::OptIn, Role::Identifier),
    (T::Public, Role::Modifier),
    (T::Private, Role::Modifier),
    (T::Open, Role::Modifier),
    (T::Abstract, Role::Modifier),
    (T::Final, Role::Modifier),
    (T::Override, Role::Modifier),
    (T::Inline, Role::Modifier),
    (T::Init, Role::BeforeBrace),
    (T::Get, Role::BeforeRound),
    (T::Until, Role::Identifier),
    (T::DownTo, Role::Identifier),
    (T::Catch, Role::BeforeRound),
    (T::Finally, Role::BeforeBrace),
    (T::Contract, Role::BeforeBrace),
    (T::Returns, Role::Identifier),
    (T::ReturnsNotNull, Role::Identifier),
    (T::CallsInPlace, Role::Identifier),
    (T::InvocationKind, Role::Identifier),
    (T::Implies, Role::Identifier),
];

/// The table, which lies in no function's frame.
fn all_roles() -> &'static [(T, Role); 106]
    ensures { result.now ≡ ROLES }
{
    &ROLES
}

/// What a terminal is to the choices of the grammar.
fn role_of(terminal: T) -> Role
    ensures { result ≡ roles.role_of terminal }
{
    all_roles()[terminal as usize].1
}

/// Whether it is a word that may stand before a declaration.
#[tactic(auto, using(crate::proofs::Tested::is_modifier_role))]
pub fn is_modifier(terminal: T) -> bool
    ensures { result ≡ spec.is_modifier terminal }
{
    role_of(terminal).is_modifier()
}

/// Whether it has a meaning only before `{`.
#[tactic(auto, using(crate::proofs::Tested::wants_brace_role))]
pub fn wants_brace(terminal: T) -> bool
    ensures { result ≡ spec.wants_brace terminal }
{
    role_of(terminal).wants_brace()
}

/// Whether it has a meaning only before `(`.
#[tactic(auto, using(crate::proofs::Tested::wants_round_role))]
pub fn wants_round(terminal: T) -> bool
    ensures { result ≡ spec.wants_round terminal }
{
    role_of(terminal).wants_round()
}

/// Whether it is an identifier.
#[tactic(auto, using(crate::proofs::Tested::is_identifier_role))]
pub fn is_identifier(terminal: T) -> bool
    ensures { result ≡ spec.is_identifier terminal }
{
    role_of(terminal).is_identifier()
}

/// Whether an expression may begin with it.
#[tactic(auto, using(crate::proofs::Tested::begins_expression_role))]
pub fn begins_expression(terminal: T) -> bool
    ensures { result ≡ spec.begins_expression terminal }
{
    role_of(terminal).begins_expression()
}
