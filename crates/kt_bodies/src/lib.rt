//! What the rules on declarations look at inside the bodies of a file: written types, and locals without type and initialiser. Below stand the trees
//! and the written rules; above stand the class table and the rules on members. Its public contract is that of `body_sites`: exactly the sites, in order.
#![tactic(auto)]

mod bodies;
mod walk;

pub use bodies::body_sites;
