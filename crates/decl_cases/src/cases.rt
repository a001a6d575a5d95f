//! Lines of hierarchies and of questions, and their answers.
use crate::declarations::file_of;
use crate::fault::Fault;
use crate::hierarchy::{Answer, Hierarchy};
use crate::show::write_findings;
use anyhow::{Result, anyhow};
use kt_model::finding::PhaseFault;
use kt_tree::{NoMemory, Source};
use std::alloc::Global;

/// Prints each line of the input and its answer. A line that begins with `?` asks a question on the hierarchy of the last line that is none; an empty
/// line, and one that begins with `#`, is printed as it is.
pub fn run(rt: &(impl Print + Input + AllocGlobal)) -> Result<()> {
    let mut hierarchy = None;
    for line in rt.lines(rt.alloc()) {
        let line = line?;
        if line.is_empty() || line.as_str().starts_with('#') {
            println!(rt; "{line}")?;
        } else {
            let answer = answer(rt.alloc(), &mut hierarchy, line.as_str())?;
            println!(rt; "{line} =>{answer}")?;
        }
    }
    Ok(())
}

/// The answer of a line. A hierarchy that is accepted is kept for the questions.
fn answer(alloc: Global, hierarchy: &mut Option<Hierarchy>, line: &str) -> Result<String> {
    if line.starts_with('?') {
        return Ok(asked(alloc, hierarchy, line)?);
    }
    let mut out = String::new(alloc);
    *hierarchy = tried(alloc, &mut out, line)?;
    Ok(out)
}

/// The answer of a question.
fn asked(
    alloc: Global,
    hierarchy: &Option<Hierarchy>,
    line: &str,
) -> std::result::Result<String, NoMemory> {
    let mut out = String::new(alloc);
    let words: Vec<&str> = line.split_whitespace().collect(alloc)?;
    let answer = match (hierarchy, words.get(1..)) {
        (Some(hierarchy), Some(words)) => hierarchy.answer(alloc, &mut out, words)?,
        _ => Answer::Unknown,
    };
    if answer == Answer::Unknown {
        out.push_str(" unknown")?;
    }
    Ok(out)
}

/// The source of a line.
fn source_of(alloc: Global, line: &str) -> Result<Source> {
    if line.len() > 1048576 {
        return Err(anyhow!("line is too long"));
    }
    let text = String::from_str(alloc, line)?;
    Ok(Source::new(text.into_bytes()))
}

/// Reads a hierarchy and tries the rules on it. Writes `ok`, the findings, or the token that cannot be read.
fn tried(alloc: Global, out: &mut String, line: &str) -> Result<Option<Hierarchy>> {
    let source = source_of(alloc, line)?;
    let file = match file_of(alloc, &source) {
        Ok(file) => file,
        Err(Fault::Unread(span)) => {
            write!(out, " unread@{}-{}", span.start, span.end)?;
            return Ok(None);
        }
        Err(Fault::NoMemory) => return Err(anyhow!("{}", NoMemory)),
    };
    match Hierarchy::of_file(alloc, file) {
        Ok(hierarchy) => {
            out.push_str(" ok")?;
            Ok(Some(hierarchy))
        }
        Err(PhaseFault::Findings(found)) => {
            write_findings(out, found.as_slice())?;
            Ok(None)
        }
        Err(PhaseFault::NoMemory) => Err(anyhow!("{}", NoMemory)),
    }
}
