//! A program over bodies: it prints their control-flow graphs, the statuses of their variables, their dead trees, and what is violated along their paths.
//!
//! It stands on `kt_graph`, `kt_init` and `kt_flow`; nothing stands above it. An empty line of its input, and one that begins with `#`, is printed as it is;
//! each other line is printed with its answer. `graph PARAMETERS : TREES` asks for the graph of the body of a function, a node a line; `paths PARAMETERS : TREES`
//! for the statuses alone, in one line; with `->` for `:` the body is one expression. `size SHAPE COUNT` asks for the size of a made body, and for the limits
//! that it passes. How trees are written stands in `words` and `forms`. With the words SHAPE COUNT it prints the size of a made body and what is found there; with a third word it only makes the body.
#![tactic(auto)]

mod answers;
mod case_file;
mod forms;
mod listing;
mod made;
mod measure;
mod reader;
mod shapes;
mod words;

use anyhow::Result;
use std::env;
use std::io::{BufRead, BufReader};

fn main(rt: HostRuntime) -> Result<()> {
    let mut words = env::args(&rt)?;
    let _program = words.next();
    match (words.next(), words.next()) {
        (Some(shape), Some(count)) => {
            let only_makes = words.next().is_some();
            measure::run(&rt, shape.as_str(), count.as_str(), only_makes)
        }
        _ => cases(&rt),
    }
}

/// Prints each line of the input, with its answer where it asks for one.
fn cases(rt: &HostRuntime) -> Result<()> {
    let alloc = rt.alloc();
    for line in BufReader::new(alloc, rt.reader())?.lines(alloc) {
        let line = line?;
        println!(rt; "{line}")?;
        let answer = answers::answer(alloc, line.as_str())?;
        print!(rt; "{answer}")?;
    }
    Ok(())
}
