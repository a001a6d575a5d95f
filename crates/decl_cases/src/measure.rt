//! The measurements.
use crate::fault::Fault;
use crate::hierarchy::accepted_table;
use crate::shapes::{Shape, made, shape_named};
use anyhow::{Result, anyhow};
use kt_model::class_table::ClassRow;
use kt_model::finding::PhaseFault;
use kt_tree::NoMemory;
use kt_tree::ast::File;
use std::alloc::Global;

/// How many members are declared, classes stand above classes, and names are settled in a table.
#[derive(Clone, Copy, Debug, PartialEq, Eq)]
struct TableSize {
    members: usize,
    above: usize,
    settled: usize,
}

fn table_size(rows: &[ClassRow]) -> TableSize {
    let mut size = TableSize {
        members: 0,
        above: 0,
        settled: 0,
    };
    for row in rows {
        size.members = size.members.saturating_add(row.members.len());
        size.above = size.above.saturating_add(row.above.len());
        size.settled = size.settled.saturating_add(row.settled.len());
    }
    size
}

fn file_of(alloc: Global, shape: Shape, count: u32) -> Result<File> {
    match made(alloc, shape, count) {
        Ok(file) => Ok(file),
        Err(Fault::Unread(_)) => Err(anyhow!("cannot be read")),
        Err(Fault::NoMemory) => Err(anyhow!("{}", NoMemory)),
    }
}

/// Makes a hierarchy, tries the rules on it unless it is only to be made, and prints its size and that of its table.
pub fn run(
    rt: &(impl Print + AllocGlobal),
    word: &str,
    count: u32,
    is_only_made: bool,
) -> Result<()> {
    let Some(shape) = shape_named(word) else {
        return Err(anyhow!("no such shape"));
    };
    let file = file_of(rt.alloc(), shape, count)?;
    let classes = file.classes.len();
    if is_only_made {
        println!(rt; "{word} {count}: {classes} classes")?;
        return Ok(());
    }
    match accepted_table(rt.alloc(), &file) {
        Ok(table) => {
            let size = table_size(table.rows());
            let members = size.members;
            let above = size.above;
            let settled = size.settled;
            println!(rt;
                "{word} {count}: {classes} classes, {members} members, {above} above, {settled} settled"
            )?;
        }
        Err(PhaseFault::Findings(found)) => {
            let findings = found.len();
            println!(rt; "{word} {count}: {classes} classes, {findings} findings")?;
        }
        Err(PhaseFault::NoMemory) => return Err(anyhow!("{}", NoMemory)),
    }
    Ok(())
}
