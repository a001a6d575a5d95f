//! The rules on the shapes of trees: what stands on left sides, which `if`s and `when`s need an `else`, and which branches need a value. Below stand the trees
//! and the written rules; above stands what checks a whole source. Its public contract is that of `shapes`: nothing is violated, or exactly what is.
#![tactic(auto)]

mod declarations;
mod findings;
mod kinds;
#[cfg(test)]
mod tests;
mod walk;

pub use findings::shapes;
