//! What typing says of trees.
use kt_model::finding::Rule;
use kt_model::kinds::KtType;
use kt_tree::Span;

/// How a tree is typed: as a statement whose value nobody takes, by its declared type, by its type as a value, or as what must give a value of a type.
#[derive(Clone, Copy, Debug, PartialEq, Eq)]
pub enum Way {
    Unvalued,
    Plain,
    Inferred,
    Checked(KtType),
}

/// What a tree is where its parts have types: of a type, against a rule, or nothing, since it rests on a variable that has no type.
#[derive(Clone, Copy, Debug, PartialEq, Eq)]
pub enum Claim {
    Gives(KtType),
    Breaks(Rule, Span),
    Lacks,
}

/// What a tree is in its way.
#[derive(Clone, Copy, Debug, PartialEq, Eq)]
pub enum Outcome {
    Stands(KtType),
    Refused(Rule, Span),
    Untyped,
}

/// What an operator asks of its left and its right operand, and what it gives.
#[derive(Clone, Copy, Debug, PartialEq, Eq)]
pub struct Operator {
    pub left: Way,
    pub right: Way,
    pub gives: KtType,
}

/// The type of a tree in its way, `None` where it has none.
#[derive(Clone, Copy, Debug, PartialEq, Eq)]
pub struct TypeRow {
    pub tree: u32,
    pub found: Option<KtType>,
}

/// A tree's value is taken as one of a type that is narrower than its declared type. The span is the tree's.
#[derive(Clone, Copy, Debug, PartialEq, Eq)]
pub struct Cast {
    pub tree: u32,
    pub span: Span,
    pub to: KtType,
}
