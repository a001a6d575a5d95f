//! The height of a tree: one more than the greatest height of the trees right within, and 201 for all that are higher than 200.
//! Trees are the expressions, statements and lambdas of `kt_tree`, which is all that stands below. What asks for the height of
//! a body's trees, beside the parser, stands above.
//!
//! Its public contract is that of `Height::height`, which takes no memory: exactly the height of `specs/Height.antt`. The rule is
//! that of phrases (kt_tree/specs/Derives).
#![tactic(auto)]

mod height;
mod walk;

pub use height::Height;
