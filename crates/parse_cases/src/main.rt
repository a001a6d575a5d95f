//! Prints the trees of the texts on its input, one text a line; or, with the words KIND and TOKENS, parses a made text of
//! about that many tokens and prints how much it holds (with a third word it only lexes the text). Below it stand `kt_lex`
//! and `kt_parse`; nothing stands above.
#![tactic(auto)]

mod cases;
mod declarations;
mod heads;
mod made;
mod measure;
mod trees;
mod writer;

use anyhow::Result;
use std::env;

fn main(rt: HostRuntime) -> Result<()> {
    let mut words = env::args(&rt)?;
    let _program = words.next();
    match (words.next(), words.next()) {
        (Some(kind), Some(tokens)) => {
            let parses = words.next().is_none();
            measure::run(&rt, kind.as_str(), tokens.as_str().parse()?, parses)
        }
        _ => cases::run(&rt),
    }
}
