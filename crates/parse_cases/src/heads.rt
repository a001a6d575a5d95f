//! What trees hold besides their parts: their kind, operators, names, types and literals.
use crate::writer::{Writer, Written};
use kt_tree::ast::{
    Access, Arithmetic, Assignment, Comparison, Equality, ExprKind, Ident, Lambda, Progression,
    Sign, Stmt, Subject, TypeRef,
};

/// Whether the expression has no parts, so that it stands without a bracket.
pub fn is_leaf(kind: &ExprKind) -> bool {
    match kind {
        ExprKind::Int(_) | ExprKind::Bool(_) | ExprKind::Null | ExprKind::This => true,
        ExprKind::Name(_) | ExprKind::Break | ExprKind::Continue => true,
        _ => false,
    }
}

/// Writes what an expression holds, and opens a bracket before that where it has parts.
pub fn expr_head(kind: &ExprKind, out: &mut Writer) -> Written {
    match kind {
        ExprKind::Int(value) => out.int(*value),
        ExprKind::Bool(value) => out.word(if *value { "true" } else { "false" }),
        ExprKind::Null => out.word("null"),
        ExprKind::This => out.word("this"),
        ExprKind::Name(name) => out.name(*name),
        ExprKind::Template(_) => out.open("string"),
        ExprKind::Paren(_) => out.open("paren"),
        ExprKind::Call { callee, .. } => out.open_name("call", callee.name),
        ExprKind::Member { access, name, .. } => out.open_name(member_word(*access), name.name),
        ExprKind::MemberCall { access, name, .. } => out.open_name(call_word(*access), name.name),
        ExprKind::NotNull(_) => out.open("!!"),
        ExprKind::Sign(sign, _) => out.open(sign_word(*sign)),
        ExprKind::Not(_) => out.open("!"),
        ExprKind::As(_, written) => out.open_type("as", *written),
        ExprKind::AsSafe(_, written) => out.open_type("as?", *written),
        ExprKind::Sum(_, _) => out.open("+"),
        ExprKind::Arithmetic(operator, _, _) => out.open(arithmetic_word(*operator)),
        ExprKind::Compare(operator, _, _) => out.open(comparison_word(*operator)),
        ExprKind::Equal(operator, _, _) => out.open(equality_word(*operator)),
        ExprKind::And(_, _) => out.open("&&"),
        ExprKind::Or(_, _) => out.open("||"),
        ExprKind::Elvis(_, _) => out.open("?:"),
        ExprKind::Is(_, written) => out.open_type("is", *written),
        ExprKind::IsNot(_, written) => out.open_type("!is", *written),
        ExprKind::If { .. } => out.open("if"),
        ExprKind::When { .. } => out.open("when"),
        ExprKind::Try { .. } => out.open("try"),
        ExprKind::Return { label, .. } => return_head(*label, out),
        ExprKind::Throw(_) => out.open("throw"),
        ExprKind::Break => out.word("break"),
        ExprKind::Continue => out.word("continue"),
    }
}

fn return_head(label: Option<Ident>, out: &mut Writer) -> Written {
    match label {
        Some(label) => out.open_name("return@", label.name),
        None => out.open("return"),
    }
}

fn member_word(access: Access) -> &'static str {
    match access {
        Access::Dot => ".",
        Access::Safe => "?.",
    }
}

fn call_word(access: Access) -> &'static str {
    match access {
        Access::Dot => ".call",
        Access::Safe => "?.call",
    }
}

/// A sign has a word of its own, since `-` and `+` are sums.
fn sign_word(sign: Sign) -> &'static str {
    match sign {
        Sign::Minus => "minus",
        Sign::Plus => "plus",
    }
}

fn arithmetic_word(operator: Arithmetic) -> &'static str {
    match operator {
        Arithmetic::Subtract => "-",
        Arithmetic::Multiply => "*",
        Arithmetic::Divide => "/",
        Arithmetic::Remainder => "%",
    }
}

fn comparison_word(operator: Comparison) -> &'static str {
    match operator {
        Comparison::Less => "<",
        Comparison::Greater => ">",
        Comparison::LessOrEqual => "<=",
        Comparison::GreaterOrEqual => ">=",
    }
}

fn equality_word(operator: Equality) -> &'static str {
    match operator {
        Equality::Equal => "==",
        Equality::NotEqual => "!=",
    }
}

fn assignment_word(assignment: Assignment) -> &'static str {
    match assignment {
        Assignment::Plain => "=",
        Assignment::Sum => "+=",
        Assignment::Arithmetic(Arithmetic::Subtract) => "-=",
        Assignment::Arithmetic(Arithmetic::Multiply) => "*=",
        Assignment::Arithmetic(Arithmetic::Divide) => "/=",
        Assignment::Arithmetic(Arithmetic::Remainder) => "%=",
    }
}

fn progression_word(progression: Progression) -> &'static str {
    match progression {
        Progression::RangeTo => "..",
        Progression::Until => "until",
        Progression::DownTo => "downTo",
    }
}

/// `val` or `var`
pub fn variable_word(is_var: bool) -> &'static str {
    if is_var { "var" } else { "val" }
}

/// Opens a bracket with a word, a name and its type where one is written.
pub fn variable_head(
    word: &str,
    name: Ident,
    written: Option<TypeRef>,
    out: &mut Writer,
) -> Written {
    out.open_name(word, name.name)?;
    out.typed(written)
}

/// Writes what a statement that is no expression holds, behind its number and an open bracket.
pub fn stmt_head(statement: &Stmt, out: &mut Writer) -> Written {
    match statement {
        Stmt::Expr(_) => Ok(()),
        Stmt::Local {
            number,
            span,
            is_var,
            name,
            written,
            ..
        } => {
            out.number(*number, *span)?;
            variable_head(variable_word(*is_var), *name, *written, out)
        }
        Stmt::Assign {
            number,
            span,
            assignment,
            ..
        } => {
            out.number(*number, *span)?;
            out.open(assignment_word(*assignment))
        }
        Stmt::While { number, span, .. } => {
            out.number(*number, *span)?;
            out.open("while")
        }
        Stmt::DoWhile { number, span, .. } => {
            out.number(*number, *span)?;
            out.open("do")
        }
        Stmt::For {
            number,
            span,
            variable,
            written,
            progression,
            ..
        } => {
            out.number(*number, *span)?;
            variable_head("for", *variable, *written, out)?;
            out.word(progression_word(*progression))
        }
    }
}

/// Writes the parameters of a lambda in square brackets, behind its number and an open bracket.
pub fn lambda_head(lambda: &Lambda, out: &mut Writer) -> Written {
    out.number(lambda.number, lambda.span)?;
    out.open("lambda")?;
    out.begin("[")?;
    for parameter in lambda.parameters.as_slice() {
        out.name(parameter.name.name)?;
        out.typed(parameter.written)?;
    }
    out.end("]")
}

/// Opens the bracket of what a `when` looks at, with its variable where there is one.
pub fn subject_head(subject: &Subject, out: &mut Writer) -> Written {
    match subject.variable {
        Some(name) => variable_head("val", name, subject.written, out),
        None => out.open("on"),
    }
}

/// Writes a test of a type in a `when`.
pub fn type_condition(word: &str, written: TypeRef, out: &mut Writer) -> Written {
    out.open_type(word, written)?;
    out.close()
}
