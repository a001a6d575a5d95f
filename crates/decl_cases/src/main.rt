//! Prints, for each hierarchy on its input, what its declarations violate, or `ok`, and the answers of questions on it; or, with the words SHAPE and
//! COUNT, makes a hierarchy of that many classes and prints the size of its class table (with a third word it only makes it). Below it stand
//! `kt_types`, `kt_rules` and `kt_decl`, over the tokens of `kt_lex`; nothing stands above.
//!
//! A line is a hierarchy: classes, interfaces and functions in Kotlin's words, their bodies a few simple forms. Its answer is `ok`, or the findings
//! of the first phase that has any, each as `CODE@START-END` with its place in bytes of the line from 0, or `unread@START-END` with the first token
//! that fits no form. A line that begins with `?` asks of the hierarchy before: `supers CLASS`, `sub CLASS CLASS`, `subtype TYPE TYPE`, `upper TYPE
//! TYPE`, and `member`, `implementation`, `candidates` or `own` with `CLASS NAME`. An empty line, and one that begins with `#`, is none.
#![tactic(auto)]

mod bodies;
mod cases;
mod declarations;
mod fault;
mod hierarchy;
mod measure;
mod reader;
mod shapes;
mod show;

use anyhow::Result;
use std::env;

fn main(rt: HostRuntime) -> Result<()> {
    let mut words = env::args(&rt)?;
    let _program = words.next();
    match (words.next(), words.next()) {
        (Some(shape), Some(count)) => {
            let is_only_made = words.next().is_some();
            measure::run(&rt, shape.as_str(), count.as_str().parse()?, is_only_made)
        }
        _ => cases::run(&rt),
    }
}
