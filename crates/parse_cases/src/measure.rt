//! Made texts, to measure the parser on.
use crate::cases::source_of;
use crate::made::Made;
use anyhow::{Result, anyhow};
use kt_lex::lex;
use kt_parse::parse;
use kt_tree::Tokens;
use kt_tree::ast::{File, FunctionBody};
use std::alloc::{AllocError, Global};

/// A text that repeats a piece between two ends. The piece has so many tokens where what opens and closes in it is repeated so
/// many times.
#[derive(Drop)]
struct Sample {
    front: &'static str,
    piece: Made,
    depth: usize,
    tokens: usize,
    back: &'static str,
}

/// A piece in which nothing is repeated.
const fn plain(piece: &'static str) -> Made {
    Made {
        front: piece,
        opens: "",
        middle: "",
        closes: "",
        back: "",
    }
}

/// A sample of statements.
const fn statements(piece: Made, depth: usize, tokens: usize) -> Sample {
    Sample {
        front: "fun main() {\n",
        piece,
        depth,
        tokens,
        back: "}\n",
    }
}

fn sample_of(kind: &str) -> Option<Sample> {
    match kind {
        "statements" => Some(statements(plain("x = x + 1\n"), 0, 5)),
        "locals" => Some(statements(plain("val x = f(1, y)\n"), 0, 9)),
        "sums" => Some(statements(SUM, 99, 201)),
        "parentheses" => Some(statements(PARENTHESES, 100, 203)),
        "functions" => Some(Sample {
            front: "",
            piece: plain("fun f() { x = 1 }\n"),
            depth: 0,
            tokens: 9,
            back: "",
        }),
        _ => None,
    }
}

/// An assigned sum of one operand and so many others.
const SUM: Made = Made {
    front: "x = 1",
    opens: " + 1",
    middle: "",
    closes: "",
    back: "\n",
};

/// An assigned number in so many parentheses.
const PARENTHESES: Made = Made {
    front: "x = ",
    opens: "(",
    middle: "1",
    closes: ")",
    back: "\n",
};

impl Sample {
    /// The text of at most so many tokens, those of its ends not counted.
    fn text(&self, alloc: Global, tokens: usize) -> Result<String, AllocError> {
        let piece = self.piece.text(alloc, self.depth)?;
        let count = tokens.checked_div(self.tokens).unwrap_or(0);
        let mut text = String::from_str(alloc, self.front)?;
        for _ in 0..count {
            text.push_str(piece.as_str())?;
        }
        text.push_str(self.back)?;
        Ok(text)
    }
}

/// Parses a text of about that many tokens, or only lexes it, and prints what it holds.
pub fn run(rt: &(impl Print + AllocGlobal), kind: &str, tokens: usize, parses: bool) -> Result<()> {
    let Some(sample) = sample_of(kind) else {
        return Err(anyhow!("no such kind"));
    };
    let source = source_of(sample.text(rt.alloc(), tokens)?)?;
    let lexed = lex(rt.alloc(), &source)?;
    let size = source.text().len();
    let count = lexed.list.len();
    let held = if parses {
        parsed(rt.alloc(), &lexed)?
    } else {
        String::new(rt.alloc())
    };
    println!(rt; "{kind}: {size} bytes, {count} tokens{held}")?;
    Ok(())
}

/// How many functions the file of the tokens has, and how many statements the first of them; or the fault.
fn parsed(alloc: Global, tokens: &Tokens) -> Result<String, AllocError> {
    match parse(alloc, tokens) {
        Ok(file) => {
            let functions = file.functions.len();
            let statements = statements_in(&file);
            format!(in alloc; ", {functions} functions, {statements} statements")
        }
        Err(fault) => format!(in alloc; ", {fault}"),
    }
}

fn statements_in(file: &File) -> usize {
    let Some(function) = file.functions.get(0) else {
        return 0;
    };
    match &function.body {
        Some(FunctionBody::Block { block, .. }) => block.statements.len(),
        _ => 0,
    }
}
