//! The program: one call that reads a source by its name, checks it and runs it.
//!
//! Below it stand `kt_outside`, whose traits are all that it sees of files and streams, and the language; above it only the program's
//! `main`. Its public contract is that of [`ktflow`]: the written meaning of a call is a *course* (`specs/Course.antt`, `HasCourse` of
//! `specs/Program.antt`), and `specs/Clauses.antt` says, clause by clause, how outputs and status follow it, what each fault does, and in
//! which order causes count. Only `src/execute.rt` and `specs/Language.antt` know the language.
#![tactic(auto)]

mod ending;
mod execute;
mod line;
mod program;
mod request;
mod source;

pub use ending::{Ending, Stop};
pub use program::{ktflow, one_course};
