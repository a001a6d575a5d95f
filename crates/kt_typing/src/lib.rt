//! The written rules of typing: the type of each tree of a body, and the findings of typing. The definitions stand in specs/; below are the trees and the
//! other written rules, above the pass that types bodies and the laws of soundness. Its public contract is the types here, of which the definitions and the
//! pass speak alike.
#![tactic(auto)]

mod claims;

pub use claims::{Cast, Claim, Operator, Outcome, TypeRow, Way};
