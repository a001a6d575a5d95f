//! Reads the tokens of a source as a file. Below it stand the grammar's tables, the trees of phrases and, in `kt_tree`, the definition of what
//! tokens derive; the class table and all later phases stand above it. Its public contract is that of `parse`: the answer is a file exactly
//! where the tokens derive one, and else the fault at exactly the token that the definition names.
#![tactic(auto)]

mod engine;
mod files;
mod laws;
mod lexed;
mod make;
mod pending;
mod release;
mod step;
#[cfg(test)]
mod tests;

pub use engine::read;
pub use files::parse;
pub use kt_tree::grammar::ParseFault;
pub use laws::files_are_determined;
pub use lexed::names_are_kept;
