//! The tokens of a source.
//!
//! Below it stands `kt_tree`, whose definitions say what the tokens of a text are; above it stand the grammar and the
//! parser. Its one public contract is that of `lex`: exactly the tokens of the source, with the numbers of their
//! names, or exactly the place where none can be formed. The functions of `laws` say what holds of every text.
#![tactic(auto)]

mod brackets;
mod characters;
mod fault;
mod integers;
mod keywords;
pub mod laws;
mod lexer;
mod moves;
mod numbering;
mod operators;
mod strings;
mod words;

pub use fault::LexFault;
pub use lexer::lex;
