//! The rules on declarations that need members: modifiers, bodies, types that must be written, reserved names, overriding, and what a class inherits.
//! Below stand the class table and the sites of bodies; above stands what checks a whole source. Its public contract is that of `members`: nothing
//! is violated, or exactly what is.
#![tactic(auto)]

mod bodies;
mod inherited;
mod modifiers;
mod overriding;
mod rules;
mod written;

pub use rules::members;
