//! What is told of a body's dead trees.
use kt_tree::Span;
use sqlite_items::Items;

/// A dead tree that lies in no other dead tree, by its number, and where it stands.
#[derive(Clone, Copy, Debug, PartialEq, Eq)]
pub struct Dead {
    pub tree: u32,
    pub span: Span,
}

/// Dead trees, in the order of the text. Clauses see their list.
pub type DeadList = Items<Dead>;
