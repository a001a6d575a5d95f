//! The limits on the graphs of a file's bodies, and the rules along the paths of a body: a local is read only where it is assigned, a `val` is only assigned
//! where it is not, and no path leads to the end of a block that must give a value. Below stand the graph of a body and the statuses of its variables; above
//! stands what checks a whole source. Its public contracts are those of `sizes` and `flow`: nothing is violated, or exactly what is, and out of which trees a path leads.
#![tactic(auto)]

mod along;
mod ends;
mod left;
mod limits;
mod notes;
mod rules;
mod walk;

pub use limits::sizes;
pub use rules::{PathAnswer, flow};
