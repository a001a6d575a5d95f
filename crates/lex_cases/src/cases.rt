//! Texts and their tokens.
use anyhow::{Result, anyhow};
use kt_lex::{LexFault, lex};
use kt_tree::{Kind, Names, NoMemory, Source, Span, Token};
use std::alloc::{AllocError, Global};

/// Prints each line of the input and the tokens of the text that it stands for, and last how the want of memory is told.
pub fn run(rt: &(impl Print + Input + AllocGlobal)) -> Result<()> {
    for line in rt.lines(rt.alloc()) {
        let line = line?;
        let text = unescaped(rt.alloc(), line.as_str())?;
        let answer = answer(rt.alloc(), text)?;
        println!(rt; "{line} =>{answer}")?;
    }
    println!(rt; "{} {}", NoMemory, LexFault::NoMemory)?;
    Ok(())
}

/// The text with `\n \r \t \f`, `\F` for U+FEFF, and any other character behind a backslash as itself.
fn unescaped(alloc: Global, line: &str) -> Result<String, AllocError> {
    let mut text = String::new(alloc);
    let mut behind_backslash = false;
    for c in line.chars() {
        if behind_backslash {
            text.push(escaped(c))?;
            behind_backslash = false;
        } else if c == '\\' {
            behind_backslash = true;
        } else {
            text.push(c)?;
        }
    }
    Ok(text)
}

fn escaped(c: char) -> char {
    match c {
        'n' => '\n',
        'r' => '\r',
        't' => '\t',
        'f' => '\u{c}',
        'F' => '\u{feff}',
        _ => c,
    }
}

/// The source with this text.
pub fn source_of(text: String) -> Result<Source> {
    let bytes = text.into_bytes();
    if bytes.len() > 1048576 {
        return Err(anyhow!("too long"));
    }
    match std::str::from_utf8(bytes.as_slice()) {
        Ok(_) => Ok(Source::new(bytes)),
        Err(_) => Err(anyhow!("not UTF-8")),
    }
}

/// The tokens of the text, or its fault.
fn answer(alloc: Global, text: String) -> Result<String> {
    let source = source_of(text)?;
    let mut out = String::new(alloc);
    match lex(alloc, &source) {
        Ok(tokens) => {
            for token in tokens.list.as_slice() {
                write_token(&mut out, &tokens.names, token)?;
            }
        }
        Err(LexFault::Bad { span }) => {
            let fault = LexFault::Bad { span };
            write_place(&mut out, &source, span)?;
            write!(out, " {fault}")?;
        }
        Err(LexFault::NoMemory) => write!(out, " {}", LexFault::NoMemory)?,
    }
    Ok(out)
}

/// Writes the token: `^` where a line end counts before it, its kind, and its span in bytes.
fn write_token(out: &mut String, names: &Names, token: &Token) -> Result<(), AllocError> {
    let flag = if token.fresh { " ^" } else { " " };
    out.push_str(flag)?;
    match &token.kind {
        Kind::Id(name) => write!(out, "Id({name} {})", text_of(names, *name))?,
        Kind::ReturnAt(name) => write!(out, "ReturnAt({name} {})", text_of(names, *name))?,
        Kind::NamePart(name) => write!(out, "NamePart({name} {})", text_of(names, *name))?,
        Kind::Text(bytes) => write_bytes(out, bytes.as_slice())?,
        kind => write!(out, "{kind:?}")?,
    }
    let Span { start, end } = token.span;
    write!(out, "@{start}-{end}")
}

/// Writes the bytes of a piece of a string, in hexadecimal digits.
fn write_bytes(out: &mut String, bytes: &[u8]) -> Result<(), AllocError> {
    out.push_str("Text(")?;
    for byte in bytes {
        write!(out, "{byte:02x}")?;
    }
    out.push_str(")")
}

fn text_of(names: &Names, name: u32) -> &str {
    if (name as usize) < names.len() {
        names.text(name)
    } else {
        "?"
    }
}

/// Writes the span as two lines and columns.
fn write_place(out: &mut String, source: &Source, span: Span) -> Result<(), AllocError> {
    let text = source.text();
    let start = span.start as usize;
    let end = span.end as usize;
    if text.is_char_boundary(start) && text.is_char_boundary(end) {
        let (line, column) = source.line_col(start);
        let (end_line, end_column) = source.line_col(end);
        write!(out, " {line}:{column}-{end_line}:{end_column}")
    } else {
        write!(out, " outside")
    }
}
