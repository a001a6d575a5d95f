//! Which variables of a body hold a value at each node of its control-flow graph, and which nodes are reached.
//!
//! It stands on `kt_model`, whose graph it takes, and on `kt_solve`, which it asks what holds along every path. Its
//! contract is `Analyses` of `specs/Statuses.antt`: each status is the one that `HasStatus` of kt_model's
//! `NodePaths` says of all paths, one at a time.
#![tactic(auto)]

mod dead;
mod graph;
mod init;
mod marks;
mod numbers;
mod problem;
#[cfg(test)]
mod tests;

pub use graph::is_graph;
pub use init::{Init, analyse};
pub use kt_model::status::Status;
