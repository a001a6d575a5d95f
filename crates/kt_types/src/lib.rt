//! Types: the subtype relation and the upper bound, exactly. Below stand the class table and its look-ups; above stand the rules on members and the
//! typing of trees. Neither call takes memory.
#![tactic(auto)]

mod relation;

pub use relation::{subtype, upper};
