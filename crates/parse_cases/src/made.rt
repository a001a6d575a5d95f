//! Texts that are made, since they are too long for lines.
use crate::cases::answer;
use anyhow::Result;
use std::alloc::{AllocError, Global};

/// A text: the front, the pieces `opens` so many times, the middle, the pieces `closes` as many times, and the back.
#[derive(Drop)]
pub struct Made {
    pub front: &'static str,
    pub opens: &'static str,
    pub middle: &'static str,
    pub closes: &'static str,
    pub back: &'static str,
}

impl Made {
    /// The text with so many pieces on each side.
    pub fn text(&self, alloc: Global, count: usize) -> Result<String, AllocError> {
        let mut text = String::from_str(alloc, self.front)?;
        push_times(&mut text, self.opens, count)?;
        text.push_str(self.middle)?;
        push_times(&mut text, self.closes, count)?;
        text.push_str(self.back)?;
        Ok(text)
    }
}

fn push_times(text: &mut String, piece: &str, count: usize) -> Result<(), AllocError> {
    for _ in 0..count {
        text.push_str(piece)?;
    }
    Ok(())
}

const PARENTHESES: Made = Made {
    front: "fun main() { ",
    opens: "(",
    middle: "1",
    closes: ")",
    back: " }",
};

const ASSIGNED: Made = Made {
    front: "fun main() { x = ",
    opens: "(",
    middle: "1",
    closes: ")",
    back: " }",
};

const OPEN: Made = Made {
    front: "fun main() { ",
    opens: "(",
    middle: "",
    closes: "",
    back: "",
};

const SIGNS: Made = Made {
    front: "fun main() { ",
    opens: "- ",
    middle: "1",
    closes: "",
    back: " }",
};

const SUM: Made = Made {
    front: "fun main() { 1",
    opens: " + 1",
    middle: "",
    closes: "",
    back: " }",
};

const BRANCHES: Made = Made {
    front: "fun main() { ",
    opens: "if (a) ",
    middle: "b",
    closes: "",
    back: " }",
};

/// Prints what is said of each made text: `read` for one that is a file, or its fault.
pub fn run(rt: &(impl Print + AllocGlobal)) -> Result<()> {
    print(rt, "parentheses", &PARENTHESES, &[199, 200])?;
    print(rt, "assigned parentheses", &ASSIGNED, &[198, 199])?;
    print(rt, "open parentheses", &OPEN, &[700, 701, 10000])?;
    print(rt, "signs", &SIGNS, &[199, 200, 10000])?;
    print(rt, "additions", &SUM, &[199, 200])?;
    print(rt, "branches", &BRANCHES, &[199, 200, 10000])
}

fn print(rt: &(impl Print + AllocGlobal), name: &str, made: &Made, counts: &[usize]) -> Result<()> {
    for count in counts {
        let said = answer(rt.alloc(), made.text(rt.alloc(), *count)?, false)?;
        if said.as_str().starts_with(" (file") {
            println!(rt; "{count} {name} => read")?;
        } else {
            println!(rt; "{count} {name} =>{said}")?;
        }
    }
    Ok(())
}
