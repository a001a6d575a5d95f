//! Makes the trees of phrases. Below it stand `kt_tree`, whose definitions say what each phrase is made into, and
//! `kt_parts`, which reads the parts of a phrase; the parser stands above it. Its public contract is that of `file`:
//! exactly the file that a phrase is.
#![tactic(auto)]

mod build;
mod declarations;
mod expressions;
mod files;
mod operations;
mod statements;
mod whole;

pub use files::file;
