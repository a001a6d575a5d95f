//! The control-flow graph of a body, as its builder hands it on: numbered nodes with their effects, and edges by these numbers. Which graph a body
//! has is this crate's definition of control flow.
use crate::class_table::Numbers;
use sqlite_items::Items;

/// What is known of a value: that it is an instance of a class, that it is none, that it is null, that it is not.
#[derive(Clone, Copy, Debug, PartialEq, Eq)]
pub enum Literal {
    Is(u32),
    Not(u32),
    Null,
    NotNull,
}

/// Literals. Clauses see their list.
pub type Literals = Items<Literal>;

/// What a target begins with: a local or a parameter, by its declaration, or `this`.
#[derive(Clone, Copy, Debug, PartialEq, Eq)]
pub enum Root {
    Local(u32),
    This,
}

/// What facts speak of: a root, and the names of the members that follow it.
#[derive(Debug, Drop)]
pub struct Target {
    pub root: Root,
    pub path: Numbers,
}

/// A literal that holds of a target.
#[derive(Debug, Drop)]
pub struct Fact {
    pub target: Target,
    pub literal: Literal,
}

/// Facts. Clauses see their list.
pub type FactList = Items<Fact>;

/// What is known of a value that is assigned: literals, or all that is known of a local, by its declaration.
#[derive(Debug, Drop)]
pub enum Known {
    Literals(Literals),
    CopyOf(u32),
}

/// What is assigned or not: a local or a parameter, by its declaration, or a field, by its place in the class.
#[derive(Clone, Copy, Debug, PartialEq, Eq, Hash)]
pub enum Variable {
    Local(u32),
    Field(u32),
}

/// What a node does. `Assume` has the facts that hold there; `Kill` removes all facts on a local, by its declaration.
#[derive(Debug, Drop)]
pub enum FlowEffect {
    Read(Variable),
    Declare(Variable),
    Assign(Variable, Known),
    Assume(FactList),
    Kill(u32),
}

/// Which of a tree's nodes a node is.
#[derive(Clone, Copy, Debug, PartialEq, Eq)]
pub enum Tag {
    Entry,
    Params,
    Super,
    Field,
    In,
    Assume,
    Catch,
    Val,
    Head,
    Turn,
    Back,
    Next,
    Handler,
    Enter,
    Body,
    Hub,
    After,
    Out,
    End,
}

/// A node: the number of its tree (0 for none), which of the tree's nodes it is, which copy, and what it does.
#[derive(Debug, Drop)]
pub struct NodeRow {
    pub tree: u32,
    pub tag: Tag,
    pub copy: u32,
    pub effects: Items<FlowEffect>,
}

/// An edge, by the places of its nodes, from 0.
#[derive(Clone, Copy, Debug, PartialEq, Eq)]
pub struct EdgeRow {
    pub from: u32,
    pub to: u32,
}

/// A graph. Its nodes stand in the order of a sweep along the flow.
#[derive(Debug, Drop)]
pub struct Graph {
    pub nodes: Items<NodeRow>,
    pub edges: Items<EdgeRow>,
    /// What the nodes declare, in the order of the nodes.
    pub variables: Items<Variable>,
    pub targets: Items<Target>,
    /// The places of the nodes in the order of a sweep.
    pub order: Numbers,
    /// How many classes the class table has.
    pub classes: u32,
}
