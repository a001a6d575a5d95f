//! The interpreter: it runs an accepted file and puts its text on an output, exactly as the written meaning says. Below are the written meaning and
//! the traits of the outside, above it the program. It has no answer for a wrong use: its one public call requires that none comes, which
//! soundness gives of every accepted source.
#![tactic(auto)]

mod branches;
mod built_ins;
mod calls;
mod evaluator;
mod frame;
mod operators;
mod run;
mod single_steps;
mod state;
mod strings;
mod texts;

pub use run::{End, run_file};
