//! The types of a body's trees, and the findings of typing: one pass over the body, which types each tree once. Below stand the class table, the uses of
//! names and the written rules, which define what is found; above stands the checker. Its public contract is that of `type_body`.
#![tactic(auto)]

mod bodies;
mod branches;
mod calls;
mod choices;
mod context;
mod endings;
mod notes;
mod opened;
mod operators;
mod statements;
mod subtypes;
mod walk;

pub use bodies::{Typed, type_body};
