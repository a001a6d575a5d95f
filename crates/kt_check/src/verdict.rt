//! What the rules say of a source.
use kt_model::finding::Finding;
use kt_model::uses::Uses;
use kt_tree::ast::File;

/// A file that violates no rule, what its names stand for, and the place of `main` among its functions.
#[derive(Drop)]
pub struct AcceptedFile {
    pub file: File,
    pub uses: Uses,
    pub main: u32,
}

/// What the rules say of a source.
#[derive(Drop)]
pub enum Verdict {
    /// No rule is violated.
    Accepted(AcceptedFile),
    /// A rule is violated: the first finding of the first phase that has any.
    Refused(Finding),
}
