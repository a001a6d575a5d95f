//! The status of a variable at a node.

/// Whether a variable holds a value before a node's own effects, along the paths that end there.
#[derive(Clone, Copy, Debug, PartialEq, Eq)]
pub enum Status {
    /// Along none of them.
    Unassigned,
    /// Along every one.
    Assigned,
    /// Along some, not along others.
    Either,
    /// No path ends there.
    Unreached,
}
