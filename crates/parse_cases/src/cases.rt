//! Texts and their trees.
use crate::declarations::file_text;
use crate::made;
use anyhow::{Result, anyhow};
use kt_lex::{LexFault, lex};
use kt_parse::{ParseFault, parse};
use kt_tree::{Source, Span, Tokens};
use std::alloc::{AllocError, Global};

/// Prints each line of the input and the trees of the text that it stands for; behind a `#` with their numbers and spans.
/// Then prints what is said of made texts, and last how faults are told.
pub fn run(rt: &(impl Print + Input + AllocGlobal)) -> Result<()> {
    for line in rt.lines(rt.alloc()) {
        let line = line?;
        let answer = answer_of(rt.alloc(), line.as_str())?;
        println!(rt; "{line} =>{answer}")?;
    }
    made::run(rt)?;
    let syntax = ParseFault::Syntax { token: 0 };
    let depth = ParseFault::TooDeep { token: 0 };
    println!(rt; "{syntax}, {depth}, {}", ParseFault::NoMemory)?;
    Ok(())
}

/// What is said of the text that a line stands for.
fn answer_of(alloc: Global, line: &str) -> Result<String> {
    match line.strip_prefix('#') {
        Some(rest) => answer(alloc, unescaped(alloc, rest)?, true),
        None => answer(alloc, unescaped(alloc, line)?, false),
    }
}

/// The text with `\n \r \t \f`, `\F` for U+FEFF, and any other character behind a backslash as itself.
fn unescaped(alloc: Global, line: &str) -> Result<String, AllocError> {
    let mut text = String::new(alloc);
    let mut behind_backslash = false;
    for c in line.chars() {
        if behind_backslash {
            text.push(escaped(c))?;
            behind_backslash = false;
        } else if c == '\\' {
            behind_backslash = true;
        } else {
            text.push(c)?;
        }
    }
    Ok(text)
}

fn escaped(c: char) -> char {
    match c {
        'n' => '\n',
        'r' => '\r',
        't' => '\t',
        'f' => '\u{c}',
        'F' => '\u{feff}',
        _ => c,
    }
}

/// The source with this text.
pub fn source_of(text: String) -> Result<Source> {
    let bytes = text.into_bytes();
    if bytes.len() > 1048576 {
        return Err(anyhow!("too long"));
    }
    match std::str::from_utf8(bytes.as_slice()) {
        Ok(_) => Ok(Source::new(bytes)),
        Err(_) => Err(anyhow!("not UTF-8")),
    }
}

/// The trees of the text, or the place and the code of its fault.
pub fn answer(alloc: Global, text: String, numbers: bool) -> Result<String> {
    let source = source_of(text)?;
    match lex(alloc, &source) {
        Ok(tokens) => parsed(alloc, &source, &tokens, numbers),
        Err(LexFault::Bad { span }) => Ok(placed(alloc, &source, span, "BAD_TOKEN")?),
        Err(LexFault::NoMemory) => Err(anyhow!("no memory")),
    }
}

/// The trees of the tokens, or the place and the code of their fault.
fn parsed(alloc: Global, source: &Source, tokens: &Tokens, numbers: bool) -> Result<String> {
    match parse(alloc, tokens) {
        Ok(file) => Ok(file_text(alloc, file, numbers)?),
        Err(ParseFault::Syntax { token }) => {
            Ok(placed(alloc, source, span_of(tokens, token), "SYNTAX")?)
        }
        Err(ParseFault::TooDeep { token }) => {
            Ok(placed(alloc, source, span_of(tokens, token), "TOO_DEEP")?)
        }
        Err(ParseFault::NoMemory) => Err(anyhow!("no memory")),
    }
}

fn span_of(tokens: &Tokens, token: u32) -> Span {
    match tokens.list.get(token as usize) {
        Some(token) => token.span,
        None => Span { start: 0, end: 0 },
    }
}

/// The span as two lines and columns, and the code of the fault there.
fn placed(alloc: Global, source: &Source, span: Span, code: &str) -> Result<String, AllocError> {
    let text = source.text();
    let start = span.start as usize;
    let end = span.end as usize;
    if text.is_char_boundary(start) && text.is_char_boundary(end) {
        let (line, column) = source.line_col(start);
        let (end_line, end_column) = source.line_col(end);
        format!(in alloc; " {line}:{column}-{end_line}:{end_column} {code}")
    } else {
        format!(in alloc; " outside {code}")
    }
}
