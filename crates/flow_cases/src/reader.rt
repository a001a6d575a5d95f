//! From words to the trees of a body. The words are taken from the last to the first, so that the parts of a form lie on the stack before its head comes, the
//! first part on top.
use crate::forms::{Form, form_of};
use crate::words::{Mark, Word};
use anyhow::{Result, anyhow};
use kt_tree::ast::{Block, Branch, Expr, ExprKind, Ident, Stmt};
use kt_tree::{Names, Span};
use sqlite_items::{Boxed, Items};
use std::alloc::Global;

/// What lies on the stack: an atom that may be a tree or a name, a part that is made, or the end of a form or block, in bytes.
#[derive(Drop)]
pub enum Part {
    Atom(Atom),
    Expr(Expr),
    Stmt(Stmt),
    Block(Block),
    End(u32),
}

/// An atom, where it stands, and its number where it is a tree.
#[derive(Drop)]
pub struct Atom {
    pub text: String,
    pub span: Span,
    pub number: u32,
}

/// Reads words from the last to the first.
#[derive(Drop)]
pub struct Reader {
    pub alloc: Global,
    pub names: Names,
    pub stack: Vec<Part>,
}

/// The atom that a part is.
fn atom_of(part: Part) -> Result<Atom> {
    match part {
        Part::Atom(atom) => Ok(atom),
        other => {
            drop(other);
            Err(anyhow!("a word is missing"))
        }
    }
}

/// The block that a part is.
pub fn block_of(part: Part) -> Result<Block> {
    match part {
        Part::Block(block) => Ok(block),
        other => {
            drop(other);
            Err(anyhow!("a block is missing"))
        }
    }
}

impl Reader {
    /// A reader of a text that ends there.
    pub fn new(alloc: Global, end: u32) -> Result<Reader> {
        let names = Names::with_built_in(alloc)?;
        let mut stack = Vec::new(alloc);
        stack.push(Part::End(end))?;
        Ok(Reader {
            alloc,
            names,
            stack,
        })
    }

    /// Takes over the word before those that were taken.
    pub fn word(&mut self, word: Word) -> Result<()> {
        let Word { mark, span, number } = word;
        match mark {
            Mark::Close | Mark::CloseBrace => self.put(Part::End(span.end)),
            Mark::Atom(text) => self.put(Part::Atom(Atom { text, span, number })),
            Mark::OpenBrace => {
                let block = self.block(span.start)?;
                self.put(Part::Block(block))
            }
            Mark::Open => {
                let part = self.form(number, span.start)?;
                self.put(part)
            }
        }
    }

    fn put(&mut self, part: Part) -> Result<()> {
        self.stack.push(part)?;
        Ok(())
    }

    /// The number of a name.
    pub fn number_of(&mut self, name: &str) -> Result<u32> {
        if self.names.len() >= 4294967295 {
            return Err(anyhow!("too many names"));
        }
        let number = self.names.number(self.alloc, name)?;
        Ok(number)
    }

    /// Takes an atom.
    fn atom(&mut self) -> Result<Atom> {
        match self.stack.pop() {
            Some(part) => atom_of(part),
            None => Err(anyhow!("a word is missing")),
        }
    }

    /// Takes a name.
    pub fn name(&mut self) -> Result<Ident> {
        let atom = self.atom()?;
        let name = self.number_of(atom.text.as_str())?;
        Ok(Ident {
            name,
            span: atom.span,
        })
    }

    /// Takes the end of a form.
    pub fn end(&mut self) -> Result<u32> {
        match self.stack.pop() {
            Some(Part::End(end)) => Ok(end),
            _ => Err(anyhow!("too many parts")),
        }
    }

    /// Whether the next part is the end of a form.
    pub fn is_at_end(&self) -> bool {
        matches!(self.stack.last(), Some(Part::End(_)))
    }

    /// The tree of an atom.
    pub fn tree_of(&mut self, atom: Atom) -> Result<Expr> {
        let Atom { text, span, number } = atom;
        let kind = match text.as_str() {
            "true" => ExprKind::Bool(true),
            "false" => ExprKind::Bool(false),
            "null" => ExprKind::Null,
            "this" => ExprKind::This,
            "break" => ExprKind::Break,
            "continue" => ExprKind::Continue,
            word => self.value_of(word)?,
        };
        Ok(Expr { number, span, kind })
    }

    /// An integer or a name.
    fn value_of(&mut self, word: &str) -> Result<ExprKind> {
        match word.parse::<u32>() {
            Ok(value) => Ok(ExprKind::Int(value)),
            Err(_) => Ok(ExprKind::Name(self.number_of(word)?)),
        }
    }

    /// The expression that a part is.
    pub fn expression_of(&mut self, part: Part) -> Result<Expr> {
        match part {
            Part::Atom(atom) => self.tree_of(atom),
            Part::Expr(e) => Ok(e),
            other => {
                drop(other);
                Err(anyhow!("an expression is missing"))
            }
        }
    }

    /// Takes an expression.
    pub fn expression(&mut self) -> Result<Expr> {
        match self.stack.pop() {
            Some(part) => self.expression_of(part),
            None => Err(anyhow!("an expression is missing")),
        }
    }

    /// Takes an expression, into a box.
    pub fn boxed(&mut self) -> Result<Boxed<Expr>> {
        let e = self.expression()?;
        Ok(Boxed::new(self.alloc, e)?)
    }

    /// Takes an expression, where the form has one more part.
    pub fn optional(&mut self) -> Result<Option<Expr>> {
        if self.is_at_end() {
            return Ok(None);
        }
        Ok(Some(self.expression()?))
    }

    /// Takes an expression into a box, where the form has one more part.
    pub fn optional_boxed(&mut self) -> Result<Option<Boxed<Expr>>> {
        if self.is_at_end() {
            return Ok(None);
        }
        Ok(Some(self.boxed()?))
    }

    /// The statement that a part is.
    fn statement_of(&mut self, part: Part) -> Result<Stmt> {
        match part {
            Part::Stmt(s) => Ok(s),
            part => Ok(Stmt::Expr(self.expression_of(part)?)),
        }
    }

    /// Takes statements up to an end, and gives where that is.
    pub fn statements(&mut self) -> Result<(Items<Stmt>, u32)> {
        let mut statements = Items::new(self.alloc);
        for _ in 0..self.stack.len() {
            match self.stack.pop() {
                Some(Part::End(end)) => return Ok((statements, end)),
                Some(part) => {
                    let s = self.statement_of(part)?;
                    statements.push(s)?;
                }
                None => {}
            }
        }
        Err(anyhow!("an end is missing"))
    }

    /// Takes the statements of a block that begins there.
    pub fn block(&mut self, start: u32) -> Result<Block> {
        let (statements, end) = self.statements()?;
        Ok(Block {
            span: Span { start, end },
            statements,
        })
    }

    /// Takes a branch: a block or a statement.
    pub fn branch(&mut self) -> Result<Boxed<Branch>> {
        let branch = match self.stack.pop() {
            Some(Part::Block(block)) => Branch::Braced(block),
            Some(part) => Branch::Single(self.statement_of(part)?),
            None => return Err(anyhow!("a branch is missing")),
        };
        Ok(Boxed::new(self.alloc, branch)?)
    }

    /// Takes a form whose number and begin these are, behind its `(`.
    fn form(&mut self, number: u32, start: u32) -> Result<Part> {
        let head = self.atom()?;
        match form_of(head.text.as_str()) {
            Some(form) => self.made(form, number, start),
            None => Err(anyhow!("no such form")),
        }
    }

    /// Takes the parts of a form behind its head.
    fn made(&mut self, form: Form, number: u32, start: u32) -> Result<Part> {
        match form {
            Form::Declare { is_var } => self.declare(number, start, is_var),
            Form::Assign(assignment) => self.assign(number, start, assignment),
            Form::While => self.while_loop(number, start),
            Form::DoWhile => self.do_while(number, start),
            Form::For => self.for_loop(number, start),
            form => {
                let kind = self.kind(form)?;
                let end = self.end()?;
                Ok(Part::Expr(Expr {
                    number,
                    span: Span { start, end },
                    kind,
                }))
            }
        }
    }
}
