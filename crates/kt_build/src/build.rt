//! What whole phrases are made into.
ghost use Rattle.std.specs.Prelude.{◌≡◌, IfOk};
ghost use Rattle.kt_tree.specs.Derives as derives;
ghost use Rattle.kt_tree.specs.Trees as trees;

use crate::declarations::{
    calls_in_place, class_decl, class_parameter_form, contract, function, function_block,
    function_type, getter, initialiser, interface_decl, parameter_form, property, returns_effect,
    returns_not_null, supertype_form, written_type,
};
use crate::expressions::{
    boolean, call_kind, if_kind, int, jump_kind, member_call, member_kind, name_kind, not_null,
    null, paren, return_kind, safe_member, safe_member_call, template, this, this_piece, throw,
    try_kind, when_kind,
};
use crate::operations::{
    and_kind, cast_kind, compare_kind, elvis_kind, equal_kind, is_type, or_kind, prefixed_kind,
    product_kind, sum_kind,
};
use crate::statements::{
    assignment_form, block_form, catch_clause, condition_branch, do_while, else_branch, for_loop,
    lambda, lambda_parameter_form, local, subject, subject_name, type_condition, while_loop,
};
use kt_grammar::is_tree;
use kt_parts::Queue;
use kt_parts::places::{after_dollar, span_between};
use kt_tree::ast::{Expr, ExprKind};
use kt_tree::grammar::{Built, Form, Phrase};
use kt_tree::{Span, Tokens};
use std::alloc::{AllocError, Global};

/// The kind of the tree of this form.
#[tactic(auto, unfolding(kt_tree::specs::Trees::expression_kind, kt_tree::specs::Trees::null, kt_tree::specs::Trees::this, kt_tree::specs::Trees::this_piece))]
fn expression_kind(
    alloc: Global,
    tokens: &Tokens,
    form: Form,
    parts: &mut Queue<Built>,
) -> Result<ExprKind, AllocError>
    ensures { IfOk result (λ kind. kind ≡ trees.expression_kind tokens.now form parts.old) }
{
    match form {
        Form::Int => Ok(int(tokens, parts)),
        Form::Bool => Ok(boolean(tokens, parts)),
        Form::Null => Ok(null()),
        Form::This => Ok(this()),
        Form::ThisPiece => Ok(this_piece()),
        Form::Name | Form::NamePiece | Form::NameTarget => Ok(name_kind(tokens, parts)),
        Form::Template => template(alloc, tokens, parts),
        Form::Paren => paren(alloc, parts),
        Form::Call => call_kind(alloc, tokens, parts),
        Form::Member | Form::MemberTarget => member_kind(alloc, tokens, parts),
        Form::SafeMember => safe_member(alloc, tokens, parts),
        Form::MemberCall => member_call(alloc, tokens, parts),
        Form::SafeMemberCall => safe_member_call(alloc, tokens, parts),
        Form::NotNull => not_null(alloc, parts),
        Form::Prefixed => prefixed_kind(alloc, tokens, parts),
        Form::Cast => cast_kind(alloc, tokens, parts),
        Form::Sum => sum_kind(alloc, tokens, parts),
        Form::Product => product_kind(alloc, tokens, parts),
        Form::Compare => compare_kind(alloc, tokens, parts),
        Form::Equal => equal_kind(alloc, tokens, parts),
        Form::And => and_kind(alloc, parts),
        Form::Or => or_kind(alloc, parts),
        Form::Elvis => elvis_kind(alloc, parts),
        Form::IsType => is_type(alloc, tokens, parts),
        Form::If => if_kind(alloc, parts),
        Form::When => when_kind(alloc, parts),
        Form::Try => try_kind(alloc, parts),
        Form::Return => return_kind(alloc, tokens, parts),
        Form::Throw => throw(alloc, parts),
        Form::Jump => Ok(jump_kind(tokens, parts)),
        _ => Ok(ExprKind::Null),
    }
}

/// Whether phrases of this form are trees, but no expressions.
fn is_statement(form: Form) -> bool
    ensures { result ≡ trees.is_statement form }
{
    match form {
        Form::Lambda | Form::Local | Form::Assignment => true,
        Form::While | Form::DoWhile | Form::For => true,
        _ => false,
    }
}

/// Whether phrases of this form are assigned, and so no trees.
fn is_assigned(form: Form) -> bool
    ensures { result ≡ trees.is_assigned form }
{
    matches!(form, Form::NameTarget | Form::MemberTarget)
}

/// Whether phrases of this form are expressions.
fn is_expression(form: Form) -> bool
    ensures { result ≡ trees.is_expression form }
{
    is_assigned(form) || (is_tree(form) && !is_statement(form))
}

fn tree_span(form: Form, span: Span) -> Span
    ensures { result ≡ trees.tree_span form span }
{
    match form {
        Form::NamePiece | Form::ThisPiece => after_dollar(span),
        _ => span,
    }
}

fn number_of(form: Form, number: u32) -> u32
    ensures { result ≡ trees.number_of form number }
{
    if is_tree(form) { number } else { 0 }
}

fn expression(
    alloc: Global,
    tokens: &Tokens,
    form: Form,
    number: u32,
    span: Span,
    parts: &mut Queue<Built>,
) -> Result<Expr, AllocError>
    ensures { IfOk result (λ tree. tree ≡ trees.expression tokens.now form number span parts.old) }
{
    Ok(Expr {
        number: number_of(form, number),
        span: tree_span(form, span),
        kind: expression_kind(alloc, tokens, form, parts)?,
    })
}

/// What a phrase of another form is made into.
#[tactic(auto, unfolding(kt_tree::specs::Trees::other))]
fn other(
    alloc: Global,
    tokens: &Tokens,
    form: Form,
    number: u32,
    span: Span,
    first: u32,
    parts: &mut Queue<Built>,
) -> Result<Built, AllocError>
    ensures { IfOk result (λ made. made ≡ trees.other tokens.now form number span first parts.old) }
{
    Ok(match form {
        Form::Lambda => lambda(alloc, number, span, parts)?,
        Form::LambdaParameter => lambda_parameter_form(tokens, parts),
        Form::Local => local(tokens, number, span, parts),
        Form::Assignment => assignment_form(tokens, number, span, parts),
        Form::While => while_loop(alloc, number, span, parts)?,
        Form::DoWhile => do_while(alloc, number, span, parts),
        Form::For => for_loop(alloc, tokens, number, span, parts)?,
        Form::Block => block_form(alloc, span, parts)?,
        Form::WrittenType => written_type(tokens, span, parts),
        Form::TypeCondition => type_condition(tokens, span, parts),
        Form::ElseBranch => else_branch(tokens, parts),
        Form::ConditionBranch => condition_branch(alloc, tokens, first, parts)?,
        Form::Catch => catch_clause(alloc, tokens, parts),
        Form::SubjectName => subject_name(tokens, parts),
        Form::Subject => subject(parts),
        Form::Function => function(alloc, tokens, span, parts)?,
        Form::FunctionBlock => function_block(alloc, span, parts)?,
        Form::Parameter => parameter_form(tokens, span, parts),
        Form::FunctionType => function_type(alloc, parts)?,
        Form::Contract => contract(alloc, tokens, span, parts)?,
        Form::Returns => returns_effect(tokens, span, parts),
        Form::ReturnsNotNull => returns_not_null(span, parts),
        Form::CallsInPlace => calls_in_place(tokens, span, parts),
        Form::Class => class_decl(alloc, tokens, span, parts)?,
        Form::Interface => interface_decl(alloc, tokens, span, parts)?,
        Form::ClassParameter => class_parameter_form(alloc, tokens, span, parts)?,
        Form::Supertype => supertype_form(alloc, tokens, span, parts)?,
        Form::Initialiser => initialiser(alloc, parts),
        Form::Property => property(alloc, tokens, span, parts)?,
        Form::Getter => getter(span, parts),
        Form::Token => Built::Token(first),
        _ => Built::Absent,
    })
}

/// What a phrase is made into, of what its parts were made into: a tree, numbered so where it is one, or a part of one. AllocError where
/// there is no memory for the trees.
#[tactic(auto, unfolding(kt_tree::specs::Trees::assembled))]
pub fn assembled(
    alloc: Global,
    tokens: &Tokens,
    phrase: &Phrase,
    number: u32,
    mut parts: Queue<Built>,
) -> Result<Built, AllocError>
    ensures { IfOk result (λ made. made ≡ trees.assembled tokens.now (derives.form_of phrase.now) (derives.first_of phrase.now) (derives.end_of phrase.now) number parts) }
{
    let span = span_between(tokens, phrase.first, phrase.last);
    if is_expression(phrase.form) {
        return Ok(Built::Expr(expression(alloc, tokens, phrase.form, number, span, &mut parts)?));
    }
    other(
        alloc,
        tokens,
        phrase.form,
        number,
        span,
        phrase.first,
        &mut parts,
    )
}
