//! Reads the parts of a phrase, and the tokens that they name.
//!
//! Below it stands `kt_tree`, whose definitions say what each reader gives of what is left of the parts; above it stands
//! `kt_build`, which puts the trees together. Its public contract is that of the methods of `Queue<Built>`: each takes
//! exactly what its reader reads off the front, and a blank where the front is something else.
#![tactic(auto)]

pub mod blanks;
pub mod lists;
pub mod operators;
pub mod options;
pub mod parts;
pub mod places;
mod queue;

pub use queue::Queue;
