//! A program over data: it reads graphs, and prints the rows that `kt_solve` finds for them; it compares `solve` and
//! `solve_once` with each other and with the states along every path, on those graphs and on random ones.
//!
//! It stands on `kt_solve` and `rand_pcg`; nothing stands above it. A line is a command:
//! `graph NAME NODES PAIRS ENTRY`; `edge FROM TO`; `set`, `clear` or `keep` with `NODE FIRST COUNT`;
//! `copy NODE FIRST COUNT SOURCE`; `order NODE` for the next node of the order of `solve_once`; `rows`;
//! `random NAME SEED GRAPHS NODES PAIRS`; `time ROUNDS` for the measurements. An empty line, and one that begins
//! with `#`, is none.
#![tactic(auto)]

mod chance;
mod compare;
mod given;
mod paths;
mod show;
mod time;

use crate::given::{Fault, Given};
use kt_solve::Transfer;
use std::io::{self, BufRead, BufReader, ErrorKind};

/// Changes the graph by a line that is not a question, and says what a question answers.
fn answer(rt: &HostRuntime, given: &mut Given, words: &[&str]) -> Result<Option<String>, Fault> {
    let alloc = rt.alloc();
    match *words {
        ["graph", name, nodes, pairs, entry] => {
            *given = Given::new(alloc, name, nodes.parse()?, pairs.parse()?, entry.parse()?)?;
            Ok(None)
        }
        ["rows"] => Ok(Some(show::rows(alloc, given)?)),
        ["random", name, seed, graphs, nodes, pairs] => {
            let counts = (graphs.parse()?, nodes.parse()?, pairs.parse()?);
            Ok(Some(chance::compare_random(alloc, name, seed.parse()?, counts)?))
        }
        ["time", rounds] => Ok(Some(time::time(rt, given, rounds.parse()?)?)),
        _ => {
            describe(given, words)?;
            Ok(None)
        }
    }
}

/// Adds an edge, an effect or a node of the order to the graph.
fn describe(given: &mut Given, words: &[&str]) -> Result<(), Fault> {
    match *words {
        ["edge", from, to] => given.edge(from.parse()?, to.parse()?),
        ["order", node] => Ok(given.order.push(node.parse()?)?),
        ["set", node, first, count] => given.effect(node, first, count, Transfer::Set),
        ["clear", node, first, count] => given.effect(node, first, count, Transfer::Clear),
        ["keep", node, first, count] => given.effect(node, first, count, Transfer::Keep),
        ["copy", node, first, count, source] => {
            given.effect(node, first, count, Transfer::CopyFrom(source.parse()?))
        }
        _ => Err(Fault::Malformed),
    }
}

/// Reads a line and prints its answer.
fn command(rt: &HostRuntime, given: &mut Given, line: &str) -> io::Result<()> {
    let words: Vec<&str> = line.split_whitespace().collect(rt.alloc())?;
    if words.is_empty() || line.starts_with('#') {
        return Ok(());
    }
    match answer(rt, given, &words) {
        Ok(Some(text)) => println!(rt; "{text}"),
        Ok(None) => Ok(()),
        Err(Fault::Malformed) => println!(rt; "not a command: {line}"),
        Err(Fault::NoMemory) => Err(io::Error::from(ErrorKind::OutOfMemory)),
        Err(Fault::Io(error)) => Err(error),
    }
}

fn main(rt: HostRuntime) -> io::Result<()> {
    let alloc = rt.alloc();
    let mut given = Given::new(alloc, "", 1, 0, 0)?;
    for line in BufReader::new(alloc, rt.reader())?.lines(alloc) {
        command(&rt, &mut given, line?.as_str())?;
    }
    Ok(())
}
