//! What typing looks at in a body.
use kt_model::class_table::ClassTable;
use kt_model::uses::{Owner, Uses};

/// The classes of a file, what its names stand for, the owner of the body, and the numbers of the body's trees out of which a path leads, in any order.
#[derive(Clone, Copy)]
pub struct BodyContext<'a> {
    pub table: &'a ClassTable,
    pub uses: &'a Uses,
    pub owner: Owner,
    pub left: &'a [u32],
}
