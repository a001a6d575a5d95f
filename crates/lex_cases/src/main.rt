//! Prints the tokens of the texts on its input, one text a line; or, with the words KIND and BYTES, lexes a made text
//! of that many bytes and prints how many tokens it has (with a third word it only makes the text). Below it stands
//! `kt_lex`; nothing stands above.
#![tactic(auto)]

mod cases;
mod measure;

use anyhow::Result;
use std::env;

fn main(rt: HostRuntime) -> Result<()> {
    let mut words = env::args(&rt)?;
    let _program = words.next();
    match (words.next(), words.next()) {
        (Some(kind), Some(bytes)) => {
            let lexes = words.next().is_none();
            measure::run(&rt, kind.as_str(), bytes.as_str().parse()?, lexes)
        }
        _ => cases::run(&rt),
    }
}
