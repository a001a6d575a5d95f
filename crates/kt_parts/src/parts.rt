//! Reading the parts of a phrase, from the first to the last.
ghost use Rattle.std.specs.Prelude.{◌≡◌};
ghost use Rattle.kt_tree.specs.Parts as spec;
ghost use Rattle.kt_tree.specs.Parts.{Gives};

use crate::blanks::{
    blank_block, blank_catch, blank_class_parameter, blank_effect, blank_expr,
    blank_lambda_parameter, blank_parameter, blank_supertype, blank_type, blank_when_branch,
};
use crate::queue::Queue;
use kt_tree::ast::{
    Block, Branch, Catch, ClassParameter, Condition, Effect, Expr, FunctionBody, LambdaParameter,
    Member, Parameter, ParameterType, Stmt, Supertype, TypeRef, WhenBranch,
};
use kt_tree::grammar::Built;
use std::alloc::Global;

/// The part as what is asked for; another kind of part gives a blank.
fn token_in(built: Built) -> u32
    ensures { result ≡ spec.token_in built }
{
    match built {
        Built::Token(place) => place,
        _ => 0,
    }
}

/// The part as what is asked for; another kind of part gives a blank.
fn count_in(built: Built) -> usize
    ensures { result ≡ spec.count_in built }
{
    match built {
        Built::Count(count) => count,
        _ => 0,
    }
}

/// The part as what is asked for; another kind of part gives a blank.
fn written_in(built: Built) -> TypeRef
    ensures { result ≡ spec.written_in built }
{
    match built {
        Built::Type(written) => written,
        _ => blank_type(),
    }
}

/// The part as what is asked for; another kind of part gives a blank.
fn expr_in(built: Built) -> Expr
    ensures { result ≡ spec.expr_in built }
{
    match built {
        Built::Expr(expr) => expr,
        _ => blank_expr(),
    }
}

/// The part as what is asked for; another kind of part gives a blank.
fn stmt_in(built: Built) -> Stmt
    ensures { result ≡ spec.stmt_in built }
{
    match built {
        Built::Stmt(stmt) => stmt,
        Built::Expr(expr) => Stmt::Expr(expr),
        _ => Stmt::Expr(blank_expr()),
    }
}

/// The part as what is asked for; another kind of part gives a blank.
fn block_in(alloc: Global, built: Built) -> Block
    ensures { result ≡ spec.block_in built }
{
    match built {
        Built::Block(block) => block,
        _ => blank_block(alloc),
    }
}

/// The part as what is asked for; another kind of part gives a blank.
fn branch_in(built: Built) -> Branch
    ensures { result ≡ spec.branch_in built }
{
    match built {
        Built::Block(block) => Branch::Braced(block),
        Built::Stmt(stmt) => Branch::Single(stmt),
        Built::Expr(expr) => Branch::Single(Stmt::Expr(expr)),
        _ => Branch::Single(Stmt::Expr(blank_expr())),
    }
}

/// The part as what is asked for; another kind of part gives a blank.
fn lambda_parameter_in(built: Built) -> LambdaParameter
    ensures { result ≡ spec.lambda_parameter_in built }
{
    match built {
        Built::LambdaParameter(parameter) => parameter,
        _ => blank_lambda_parameter(),
    }
}

/// The part as what is asked for; another kind of part gives a blank.
fn when_branch_in(built: Built) -> WhenBranch
    ensures { result ≡ spec.when_branch_in built }
{
    match built {
        Built::WhenBranch(branch) => branch,
        _ => blank_when_branch(),
    }
}

/// The part as what is asked for; another kind of part gives a blank.
fn condition_in(built: Built) -> Condition
    ensures { result ≡ spec.condition_in built }
{
    match built {
        Built::Condition(condition) => condition,
        Built::Expr(expr) => Condition::Value(expr),
        _ => Condition::Value(blank_expr()),
    }
}

/// The part as what is asked for; another kind of part gives a blank.
fn catch_in(alloc: Global, built: Built) -> Catch
    ensures { result ≡ spec.catch_in built }
{
    match built {
        Built::Catch(catch) => catch,
        _ => blank_catch(alloc),
    }
}

/// The part as what is asked for; another kind of part gives a blank.
fn parameter_in(built: Built) -> Parameter
    ensures { result ≡ spec.parameter_in built }
{
    match built {
        Built::Parameter(parameter) => parameter,
        _ => blank_parameter(),
    }
}

/// The part as what is asked for; another kind of part gives a blank.
fn parameter_type_in(built: Built) -> ParameterType
    ensures { result ≡ spec.parameter_type_in built }
{
    match built {
        Built::Type(written) => ParameterType::Value(written),
        Built::FunctionType(parameters, result) => ParameterType::Function { parameters, result },
        _ => ParameterType::Value(blank_type()),
    }
}

/// The part as what is asked for; another kind of part gives a blank.
fn effect_in(built: Built) -> Effect
    ensures { result ≡ spec.effect_in built }
{
    match built {
        Built::Effect(effect) => effect,
        _ => blank_effect(),
    }
}

/// The part as what is asked for; another kind of part gives a blank.
fn class_parameter_in(alloc: Global, built: Built) -> ClassParameter
    ensures { result ≡ spec.class_parameter_in built }
{
    match built {
        Built::ClassParameter(parameter) => parameter,
        _ => blank_class_parameter(alloc),
    }
}

/// The part as what is asked for; another kind of part gives a blank.
fn supertype_in(built: Built) -> Supertype
    ensures { result ≡ spec.supertype_in built }
{
    match built {
        Built::Supertype(supertype) => supertype,
        _ => blank_supertype(),
    }
}

/// The part as what is asked for; another kind of part gives a blank.
fn member_in(alloc: Global, built: Built) -> Member
    ensures { result ≡ spec.member_in built }
{
    match built {
        Built::Init(block) => Member::Init(block),
        Built::Function(function) => Member::Function(function),
        Built::Property(property) => Member::Property(property),
        _ => Member::Init(blank_block(alloc)),
    }
}

/// The part as what is asked for; another kind of part gives a blank.
fn getter_body_in(built: Built) -> FunctionBody
    ensures { result ≡ spec.getter_body_in built }
{
    match built {
        Built::Expr(expr) => FunctionBody::Expr(expr),
        Built::Block(block) => FunctionBody::Block {
            contract: None,
            block,
        },
        _ => FunctionBody::Expr(blank_expr()),
    }
}

impl Queue<Built> {
    pub fn token(&mut self) -> u32
        ensures { Gives spec.token self.old result self.new }
    {
        match self.pop() {
            Some(built) => token_in(built),
            None => 0,
        }
    }

    pub fn count(&mut self) -> usize
        ensures { Gives spec.count self.old result self.new }
    {
        match self.pop() {
            Some(built) => count_in(built),
            None => 0,
        }
    }

    pub fn written(&mut self) -> TypeRef
        ensures { Gives spec.written self.old result self.new }
    {
        match self.pop() {
            Some(built) => written_in(built),
            None => blank_type(),
        }
    }

    pub fn expr(&mut self) -> Expr
        ensures { Gives spec.expr self.old result self.new }
    {
        match self.pop() {
            Some(built) => expr_in(built),
            None => blank_expr(),
        }
    }

    pub fn stmt(&mut self) -> Stmt
        ensures { Gives spec.stmt self.old result self.new }
    {
        match self.pop() {
            Some(built) => stmt_in(built),
            None => Stmt::Expr(blank_expr()),
        }
    }

    pub fn block(&mut self, alloc: Global) -> Block
        ensures { Gives spec.block self.old result self.new }
    {
        match self.pop() {
            Some(built) => block_in(alloc, built),
            None => blank_block(alloc),
        }
    }

    pub fn branch(&mut self) -> Branch
        ensures { Gives spec.branch self.old result self.new }
    {
        match self.pop() {
            Some(built) => branch_in(built),
            None => Branch::Single(Stmt::Expr(blank_expr())),
        }
    }

    pub fn lambda_parameter(&mut self) -> LambdaParameter
        ensures { Gives spec.lambda_parameter self.old result self.new }
    {
        match self.pop() {
            Some(built) => lambda_parameter_in(built),
            None => blank_lambda_parameter(),
        }
    }

    pub fn when_branch(&mut self) -> WhenBranch
        ensures { Gives spec.when_branch self.old result self.new }
    {
        match self.pop() {
            Some(built) => when_branch_in(built),
            None => blank_when_branch(),
        }
    }

    pub fn condition(&mut self) -> Condition
        ensures { Gives spec.condition self.old result self.new }
    {
        match self.pop() {
            Some(built) => condition_in(built),
            None => Condition::Value(blank_expr()),
        }
    }

    pub fn catch(&mut self, alloc: Global) -> Catch
        ensures { Gives spec.catch self.old result self.new }
    {
        match self.pop() {
            Some(built) => catch_in(alloc, built),
            None => blank_catch(alloc),
        }
    }

    pub fn parameter(&mut self) -> Parameter
        ensures { Gives spec.parameter self.old result self.new }
    {
        match self.pop() {
            Some(built) => parameter_in(built),
            None => blank_parameter(),
        }
    }

    pub fn parameter_type(&mut self) -> ParameterType
        ensures { Gives spec.parameter_type self.old result self.new }
    {
        match self.pop() {
            Some(built) => parameter_type_in(built),
            None => ParameterType::Value(blank_type()),
        }
    }

    pub fn effect(&mut self) -> Effect
        ensures { Gives spec.effect self.old result self.new }
    {
        match self.pop() {
            Some(built) => effect_in(built),
            None => blank_effect(),
        }
    }

    pub fn class_parameter(&mut self, alloc: Global) -> ClassParameter
        ensures { Gives spec.class_parameter self.old result self.new }
    {
        match self.pop() {
            Some(built) => class_parameter_in(alloc, built),
            None => blank_class_parameter(alloc),
        }
    }

    pub fn supertype(&mut self) -> Supertype
        ensures { Gives spec.supertype self.old result self.new }
    {
        match self.pop() {
            Some(built) => supertype_in(built),
            None => blank_supertype(),
        }
    }

    pub fn member(&mut self, alloc: Global) -> Member
        ensures { Gives spec.member self.old result self.new }
    {
        match self.pop() {
            Some(built) => member_in(alloc, built),
            None => Member::Init(blank_block(alloc)),
        }
    }

    pub fn getter_body(&mut self) -> FunctionBody
        ensures { Gives spec.getter_body self.old result self.new }
    {
        match self.pop() {
            Some(built) => getter_body_in(built),
            None => FunctionBody::Expr(blank_expr()),
        }
    }
}
