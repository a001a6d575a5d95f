//! The tables of the grammar: the class of a token, the rows of a nonterminal, what a production is made of. Below it stand
//! `kt_tree`, whose definitions say what the tables must hold, and `kt_table`, which looks their rows up; the parser stands
//! above it. Its contract: `expansion` gives exactly what the grammar puts in a nonterminal's place before a token of a class,
//! for whatever rows are open.
#![tactic(auto)]

mod alternatives;
mod classes;
mod forms;
mod lookup;
mod place;
mod productions;
mod roles;
mod rows;
#[cfg(test)]
mod tests;
mod words;

pub use alternatives::expansion;
pub use classes::{class_of, same_terminal, stands_for};
pub use forms::is_tree;
pub use lookup::row;
