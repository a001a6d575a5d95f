//! The written rules: findings and their order, what a name means, classes, members and types, the control-flow graph of a body and the statuses
//! of variables along its paths. The definitions stand in specs/; below are the trees, above everything that checks or runs them. Its public
//! contract is that of `ClassTable`: a table is settled.
#![tactic(auto)]

pub mod body_site;
pub mod built_ins;
pub mod class_table;
pub mod dead;
pub mod finding;
pub mod graph;
pub mod kinds;
pub mod modified;
pub mod name_events;
pub mod status;
pub mod top_names;
pub mod uses;
