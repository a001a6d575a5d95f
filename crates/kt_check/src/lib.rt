//! The rules of the language on a source: its verdict, exactly as the written rules say.
//!
//! Below stand the phases: the reading of a source (kt_source), its declarations and members (kt_decl, kt_rules), the names in its bodies (kt_scope), the
//! shapes of its trees (kt_shape), the limits and the paths of bodies (kt_flow) and their types (kt_infer); above, the program, which reports a refusal or runs the accepted file. The public contract is that of `check`: what is accepted
//! violates no rule of any phase; what is refused names the first finding of the first phase that has any.
#![tactic(auto)]

mod bodies;
mod checking;
mod file_phases;
pub mod laws;
#[cfg(test)]
mod tests;
mod verdict;

pub use checking::check;
pub use verdict::{AcceptedFile, Verdict};
