//! Reading the optional parts of a phrase.
ghost use Rattle.std.specs.Prelude.{◌≡◌};
ghost use Rattle.kt_tree.specs.Parts as spec;
ghost use Rattle.kt_tree.specs.Parts.{Gives};

use crate::queue::Queue;
use kt_tree::ast::{
    Block, Branch, Contract, Expr, FunctionBody, Getter, Ident, Lambda, Stmt, Subject, TypeRef,
};
use kt_tree::grammar::Built;

/// The part as an option; another kind of part gives none.
fn maybe_token_in(built: Built) -> Option<u32>
    ensures { result ≡ spec.maybe_token_in built }
{
    match built {
        Built::Token(place) => Some(place),
        _ => None,
    }
}

/// The part as an option; another kind of part gives none.
fn maybe_type_in(built: Built) -> Option<TypeRef>
    ensures { result ≡ spec.maybe_type_in built }
{
    match built {
        Built::Type(written) => Some(written),
        _ => None,
    }
}

/// The part as an option; another kind of part gives none.
fn maybe_expr_in(built: Built) -> Option<Expr>
    ensures { result ≡ spec.maybe_expr_in built }
{
    match built {
        Built::Expr(expr) => Some(expr),
        _ => None,
    }
}

/// The part as an option; another kind of part gives none.
fn maybe_block_in(built: Built) -> Option<Block>
    ensures { result ≡ spec.maybe_block_in built }
{
    match built {
        Built::Block(block) => Some(block),
        _ => None,
    }
}

/// The part as an option; another kind of part gives none.
fn maybe_branch_in(built: Built) -> Option<Branch>
    ensures { result ≡ spec.maybe_branch_in built }
{
    match built {
        Built::Block(block) => Some(Branch::Braced(block)),
        Built::Stmt(stmt) => Some(Branch::Single(stmt)),
        Built::Expr(expr) => Some(Branch::Single(Stmt::Expr(expr))),
        _ => None,
    }
}

/// The part as an option; another kind of part gives none.
fn maybe_lambda_in(built: Built) -> Option<Lambda>
    ensures { result ≡ spec.maybe_lambda_in built }
{
    match built {
        Built::Lambda(lambda) => Some(lambda),
        _ => None,
    }
}

/// The part as an option; another kind of part gives none.
fn maybe_subject_in(built: Built) -> Option<Subject>
    ensures { result ≡ spec.maybe_subject_in built }
{
    match built {
        Built::Subject(subject) => Some(subject),
        _ => None,
    }
}

/// The part as an option; another kind of part gives none.
fn maybe_subject_name_in(built: Built) -> Option<(Ident, Option<TypeRef>)>
    ensures { result ≡ spec.maybe_subject_name_in built }
{
    match built {
        Built::SubjectName(name, written) => Some((name, written)),
        _ => None,
    }
}

/// The part as an option; another kind of part gives none.
fn maybe_count_in(built: Built) -> Option<usize>
    ensures { result ≡ spec.maybe_count_in built }
{
    match built {
        Built::Count(count) => Some(count),
        _ => None,
    }
}

/// The part as an option; another kind of part gives none.
fn maybe_contract_in(built: Built) -> Option<Contract>
    ensures { result ≡ spec.maybe_contract_in built }
{
    match built {
        Built::Contract(contract) => Some(contract),
        _ => None,
    }
}

/// The part as an option; another kind of part gives none.
fn maybe_getter_in(built: Built) -> Option<Getter>
    ensures { result ≡ spec.maybe_getter_in built }
{
    match built {
        Built::Getter(getter) => Some(getter),
        _ => None,
    }
}

/// The part as an option; another kind of part gives none.
fn maybe_body_in(built: Built) -> Option<FunctionBody>
    ensures { result ≡ spec.maybe_body_in built }
{
    match built {
        Built::Expr(expr) => Some(FunctionBody::Expr(expr)),
        Built::FunctionBlock(contract, block) => Some(FunctionBody::Block { contract, block }),
        _ => None,
    }
}

impl Queue<Built> {
    pub fn maybe_token(&mut self) -> Option<u32>
        ensures { Gives spec.maybe_token self.old result self.new }
    {
        match self.pop() {
            Some(built) => maybe_token_in(built),
            None => None,
        }
    }

    pub fn maybe_type(&mut self) -> Option<TypeRef>
        ensures { Gives spec.maybe_type self.old result self.new }
    {
        match self.pop() {
            Some(built) => maybe_type_in(built),
            None => None,
        }
    }

    pub fn maybe_expr(&mut self) -> Option<Expr>
        ensures { Gives spec.maybe_expr self.old result self.new }
    {
        match self.pop() {
            Some(built) => maybe_expr_in(built),
            None => None,
        }
    }

    pub fn maybe_block(&mut self) -> Option<Block>
        ensures { Gives spec.maybe_block self.old result self.new }
    {
        match self.pop() {
            Some(built) => maybe_block_in(built),
            None => None,
        }
    }

    pub fn maybe_branch(&mut self) -> Option<Branch>
        ensures { Gives spec.maybe_branch self.old result self.new }
    {
        match self.pop() {
            Some(built) => maybe_branch_in(built),
            None => None,
        }
    }

    pub fn maybe_lambda(&mut self) -> Option<Lambda>
        ensures { Gives spec.maybe_lambda self.old result self.new }
    {
        match self.pop() {
            Some(built) => maybe_lambda_in(built),
            None => None,
        }
    }

    pub fn maybe_subject(&mut self) -> Option<Subject>
        ensures { Gives spec.maybe_subject self.old result self.new }
    {
        match self.pop() {
            Some(built) => maybe_subject_in(built),
            None => None,
        }
    }

    pub fn maybe_subject_name(&mut self) -> Option<(Ident, Option<TypeRef>)>
        ensures { Gives spec.maybe_subject_name self.old result self.new }
    {
        match self.pop() {
            Some(built) => maybe_subject_name_in(built),
            None => None,
        }
    }

    pub fn maybe_count(&mut self) -> Option<usize>
        ensures { Gives spec.maybe_count self.old result self.new }
    {
        match self.pop() {
            Some(built) => maybe_count_in(built),
            None => None,
        }
    }

    pub fn maybe_contract(&mut self) -> Option<Contract>
        ensures { Gives spec.maybe_contract self.old result self.new }
    {
        match self.pop() {
            Some(built) => maybe_contract_in(built),
            None => None,
        }
    }

    pub fn maybe_getter(&mut self) -> Option<Getter>
        ensures { Gives spec.maybe_getter self.old result self.new }
    {
        match self.pop() {
            Some(built) => maybe_getter_in(built),
            None => None,
        }
    }

    pub fn maybe_body(&mut self) -> Option<FunctionBody>
        ensures { Gives spec.maybe_body self.old result self.new }
    {
        match self.pop() {
            Some(built) => maybe_body_in(built),
            None => None,
        }
    }
}
