//! The written meaning of an accepted program: values, what an evaluation does to a state, and the course of a run. The definitions stand in
//! specs/; below are the trees and the written rules, above the laws of soundness and the interpreter.
#![tactic(auto)]

mod evaluation_laws;
mod states;
mod text;

pub use evaluation_laws::{
    depth_bound_is_no_part, meaning_unfolds, numbers_wrap, one_run_of_file, whole_is_meaning,
    worked_runs,
};
pub use states::{Exception, Limit, RunEnding, Value, Way};
pub use text::Text;
