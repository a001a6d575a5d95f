//! A solver of flow equations: which nodes of a graph are reached from its entry, and which pairs are set along every
//! path to them, where each node keeps, sets, clears or copies pairs. A pair is a number whose meaning is the caller's.
//!
//! It stands on `std` alone. `kt_init` asks it which variables hold a value, `kt_cast` which facts hold.
//!
//! Its one contract is `Solves` of `specs/Table.antt`: the rows of `solve` and `solve_once` say that a node is reached
//! exactly where a path ends at it, and that a pair holds there exactly where every such path sets it. `solve` takes any
//! graph. `solve_once` takes an order that passes `can_solve_once`, and reads each edge once.
#![tactic(auto)]

mod apply;
mod chains;
mod effect;
mod lanes;
mod mark;
mod matrix;
mod once;
mod order;
mod postorder;
mod problem;
mod rows;
mod steps;
#[cfg(test)]
mod tests;
mod words;
mod worklist;

pub use effect::{Edge, Effect, Transfer};
pub use lanes::meet;
pub use once::solve_once;
pub use order::can_solve_once;
pub use problem::{NoMemory, Problem};
pub use rows::Rows;
pub use steps::Steps;
pub use worklist::solve;
