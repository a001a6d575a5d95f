//! The forms of trees that are written in parentheses, `(HEAD PART ..)`, each known by its head.
use kt_tree::ast::{Arithmetic, Assignment, Comparison, Equality, Expr, ExprKind, Sign};
use sqlite_items::Boxed;

/// What a form is. A form with a name has it behind its head.
#[derive(Clone, Copy, Debug)]
pub enum Form {
    /// `(val NAME)`, `(val NAME VALUE)`, and the same with `var`.
    Declare { is_var: bool },
    /// `(= TARGET VALUE)`, or another operator; the target is a name or a tree, and the value may be missing.
    Assign(Assignment),
    Wrap(Wrap),
    Pair(Pair),
    /// `(if CONDITION BRANCH)`, `(if CONDITION BRANCH BRANCH)`.
    If,
    /// `(return)`, `(return VALUE)`.
    Return,
    /// `(return@ LABEL)`, `(return@ LABEL VALUE)`.
    ReturnAt,
    /// `(call NAME ARGUMENT ..)`.
    Call,
    /// The same with a lambda behind the arguments, which is no tree here.
    LambdaCall,
    /// `(text PIECE ..)`: a string; the piece `.` is a text, and any other is inserted.
    Template,
    /// `(while CONDITION BRANCH)`.
    While,
    /// `(do BLOCK CONDITION)`.
    DoWhile,
    /// `(for NAME LOW HIGH BRANCH)`.
    For,
}

/// A form of one part.
#[derive(Clone, Copy, Debug)]
pub enum Wrap {
    Paren,
    Not,
    Sign(Sign),
    Throw,
    NotNull,
}

/// A form of two parts.
#[derive(Clone, Copy, Debug)]
pub enum Pair {
    Sum,
    Arithmetic(Arithmetic),
    Compare(Comparison),
    Equal(Equality),
    And,
    Or,
    Elvis,
}

/// The heads.
const FORMS: [(&str, Form); 39] = [
    ("val", Form::Declare { is_var: false }),
    ("var", Form::Declare { is_var: true }),
    ("=", Form::Assign(Assignment::Plain)),
    ("+=", Form::Assign(Assignment::Sum)),
    (
        "-=",
        Form::Assign(Assignment::Arithmetic(Arithmetic::Subtract)),
    ),
    (
        "*=",
        Form::Assign(Assignment::Arithmetic(Arithmetic::Multiply)),
    ),
    (
        "/=",
        Form::Assign(Assignment::Arithmetic(Arithmetic::Divide)),
    ),
    (
        "%=",
        Form::Assign(Assignment::Arithmetic(Arithmetic::Remainder)),
    ),
    ("++", Form::Assign(Assignment::Sum)),
    (
        "--",
        Form::Assign(Assignment::Arithmetic(Arithmetic::Subtract)),
    ),
    ("paren", Form::Wrap(Wrap::Paren)),
    ("!", Form::Wrap(Wrap::Not)),
    ("neg", Form::Wrap(Wrap::Sign(Sign::Minus))),
    ("pos", Form::Wrap(Wrap::Sign(Sign::Plus))),
    ("throw", Form::Wrap(Wrap::Throw)),
    ("!!", Form::Wrap(Wrap::NotNull)),
    ("+", Form::Pair(Pair::Sum)),
    ("-", Form::Pair(Pair::Arithmetic(Arithmetic::Subtract))),
    ("*", Form::Pair(Pair::Arithmetic(Arithmetic::Multiply))),
    ("/", Form::Pair(Pair::Arithmetic(Arithmetic::Divide))),
    ("%", Form::Pair(Pair::Arithmetic(Arithmetic::Remainder))),
    ("<", Form::Pair(Pair::Compare(Comparison::Less))),
    (">", Form::Pair(Pair::Compare(Comparison::Greater))),
    ("<=", Form::Pair(Pair::Compare(Comparison::LessOrEqual))),
    (">=", Form::Pair(Pair::Compare(Comparison::GreaterOrEqual))),
    ("==", Form::Pair(Pair::Equal(Equality::Equal))),
    ("!=", Form::Pair(Pair::Equal(Equality::NotEqual))),
    ("&&", Form::Pair(Pair::And)),
    ("||", Form::Pair(Pair::Or)),
    ("?:", Form::Pair(Pair::Elvis)),
    ("if", Form::If),
    ("return", Form::Return),
    ("return@", Form::ReturnAt),
    ("call", Form::Call),
    ("lambda", Form::LambdaCall),
    ("text", Form::Template),
    ("while", Form::While),
    ("do", Form::DoWhile),
    ("for", Form::For),
];

/// The form with this head.
pub fn form_of(head: &str) -> Option<Form> {
    for (text, form) in FORMS {
        if text == head {
            return Some(form);
        }
    }
    None
}

impl Form {
    /// Whether a name stands behind the head, which is no tree.
    pub fn has_name(self) -> bool {
        match self {
            Form::Declare { .. } | Form::Assign(_) | Form::ReturnAt => true,
            Form::Call | Form::LambdaCall | Form::For => true,
            _ => false,
        }
    }
}

impl Wrap {
    /// The expression round this part.
    pub fn around(self, a: Boxed<Expr>) -> ExprKind {
        match self {
            Wrap::Paren => ExprKind::Paren(a),
            Wrap::Not => ExprKind::Not(a),
            Wrap::Sign(sign) => ExprKind::Sign(sign, a),
            Wrap::Throw => ExprKind::Throw(a),
            Wrap::NotNull => ExprKind::NotNull(a),
        }
    }
}

impl Pair {
    /// The expression of these two parts.
    pub fn of(self, a: Boxed<Expr>, b: Boxed<Expr>) -> ExprKind {
        match self {
            Pair::Sum => ExprKind::Sum(a, b),
            Pair::Arithmetic(operator) => ExprKind::Arithmetic(operator, a, b),
            Pair::Compare(operator) => ExprKind::Compare(operator, a, b),
            Pair::Equal(operator) => ExprKind::Equal(operator, a, b),
            Pair::And => ExprKind::And(a, b),
            Pair::Or => ExprKind::Or(a, b),
            Pair::Elvis => ExprKind::Elvis(a, b),
        }
    }
}
