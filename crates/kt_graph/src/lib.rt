//! The control-flow graph of a body: its nodes, their effects and its edges, numbered. Below stand the trees and the written rules, which define the graph; above
//! stand statuses, facts and types. Its public contract is that of `graph`.
#![tactic(auto)]

mod building;
mod count;
mod graphs;
mod leaving;
mod simple;
mod statements;
mod walk;

pub use graphs::{GraphFault, graph, is_too_large};
