//! What the names in the bodies of a file stand for, and the rules on names. Below stand the trees and the written rules with the class table;
//! above stand the graph and the types of bodies. Its public contract is that of `resolve`: the uses of all names, or exactly what is violated.
#![tactic(auto)]

mod declarations;
mod events;
mod resolver;
mod scopes;
mod uses;

pub use uses::resolve;
