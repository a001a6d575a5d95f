//! Fixed tables of rows with rising keys.
//!
//! Below it stands std alone; above it stand the crates with constant tables: keywords, grammar rows, texts of a report.
//! Its public contract is that of `Table::find`: the value of the one row with the key, `None` exactly where there is none
//! (`specs/Table.antt`). Nothing here takes memory.
#![tactic(auto)]

mod table;

pub use table::Table;

#[cfg(test)]
mod tests;
