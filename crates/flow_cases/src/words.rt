//! The words of trees. Blanks part words, and each of `( ) { }` is one. A tree is an atom or a form in parentheses; all trees are numbered from 1 in the order of
//! the words that begin them, as in a file. The head of a form begins none, nor does the name behind it or the piece `.` of a string.
use crate::forms::form_of;
use kt_tree::Span;
use std::alloc::{AllocError, Global};
use std::mem;

/// What a word is.
#[derive(Debug, Drop)]
pub enum Mark {
    Open,
    Close,
    OpenBrace,
    CloseBrace,
    Atom(String),
}

/// A word, where it stands in bytes from 0, and the number of the tree that it begins, 0 where it begins none.
#[derive(Debug, Drop)]
pub struct Word {
    pub mark: Mark,
    pub span: Span,
    pub number: u32,
}

/// What the next word is to the form that it stands in.
#[derive(Clone, Copy)]
enum Next {
    Head,
    Name,
    Part,
}

/// The words so far, the atom that is being read, and how many bytes and trees came.
#[derive(Drop)]
struct Splitter {
    alloc: Global,
    words: Vec<Word>,
    atom: String,
    at: u32,
    trees: u32,
    next: Next,
}

/// The words of a text, in order.
pub fn words_of(alloc: Global, text: &str) -> Result<Vec<Word>, AllocError> {
    let mut splitter = Splitter {
        alloc,
        words: Vec::new(alloc),
        atom: String::new(alloc),
        at: 0,
        trees: 0,
        next: Next::Part,
    };
    for c in text.chars() {
        splitter.character(c)?;
    }
    splitter.end_atom()?;
    Ok(splitter.words)
}

/// How many bytes a text has.
fn len_of(text: &str) -> u32 {
    u32::try_from(text.len()).unwrap_or(u32::MAX)
}

impl Splitter {
    fn character(&mut self, c: char) -> Result<(), AllocError> {
        match c {
            ' ' => self.end_atom()?,
            '(' => self.bracket(Mark::Open)?,
            ')' => self.bracket(Mark::Close)?,
            '{' => self.bracket(Mark::OpenBrace)?,
            '}' => self.bracket(Mark::CloseBrace)?,
            _ => self.atom.push(c)?,
        }
        self.at = self.at.saturating_add(c.len_utf8() as u32);
        Ok(())
    }

    /// Ends an atom, if one is being read, and adds a word of one byte.
    fn bracket(&mut self, mark: Mark) -> Result<(), AllocError> {
        self.end_atom()?;
        let end = self.at.saturating_add(1);
        self.add(
            mark,
            Span {
                start: self.at,
                end,
            },
        )
    }

    /// Ends an atom, if one is being read.
    fn end_atom(&mut self) -> Result<(), AllocError> {
        if self.atom.is_empty() {
            return Ok(());
        }
        let atom = mem::replace(&mut self.atom, String::new(self.alloc));
        let start = self.at.saturating_sub(len_of(atom.as_str()));
        self.add(
            Mark::Atom(atom),
            Span {
                start,
                end: self.at,
            },
        )
    }

    fn add(&mut self, mark: Mark, span: Span) -> Result<(), AllocError> {
        let number = if self.begins_tree(&mark) {
            self.trees = self.trees.saturating_add(1);
            self.trees
        } else {
            0
        };
        self.next = self.next_after(&mark);
        self.words.push(Word { mark, span, number })?;
        Ok(())
    }

    fn begins_tree(&self, mark: &Mark) -> bool {
        match mark {
            Mark::Open => true,
            Mark::Close | Mark::OpenBrace | Mark::CloseBrace => false,
            Mark::Atom(text) => matches!(self.next, Next::Part) && text.as_str() != ".",
        }
    }

    fn next_after(&self, mark: &Mark) -> Next {
        match (mark, self.next) {
            (Mark::Open, _) => Next::Head,
            (Mark::Atom(head), Next::Head) => behind_head(head.as_str()),
            _ => Next::Part,
        }
    }
}

fn behind_head(head: &str) -> Next {
    match form_of(head) {
        Some(form) if form.has_name() => Next::Name,
        _ => Next::Part,
    }
}
