//! The trees that forms are made into.
use crate::forms::{Form, Pair, Wrap};
use crate::reader::{Atom, Part, Reader, block_of};
use anyhow::{Result, anyhow};
use kt_tree::Span;
use kt_tree::ast::{
    Assignment, Block, Expr, ExprKind, Ident, Lambda, Progression, Stmt, StringPart,
};
use sqlite_items::{Boxed, Items};
use std::alloc::Global;

/// A lambda without statements, which no word begins.
fn empty_lambda(alloc: Global) -> Lambda {
    let nowhere = Span { start: 0, end: 0 };
    Lambda {
        number: 0,
        span: nowhere,
        parameters: Items::new(alloc),
        body: Block {
            span: nowhere,
            statements: Items::new(alloc),
        },
    }
}

/// A text of one byte.
fn text_piece(alloc: Global) -> Result<StringPart> {
    let mut bytes = Items::new(alloc);
    bytes.push(b'.')?;
    Ok(StringPart::Text(bytes))
}

impl Reader {
    /// Takes the name of a local, and its value where one is written.
    pub fn declare(&mut self, number: u32, start: u32, is_var: bool) -> Result<Part> {
        let name = self.name()?;
        let value = self.optional()?;
        let end = self.end()?;
        Ok(Part::Stmt(Stmt::Local {
            number,
            span: Span { start, end },
            is_var,
            name,
            written: None,
            value,
        }))
    }

    /// Takes a left side, and a value where one is written. A name on a left side is no tree.
    pub fn assign(&mut self, number: u32, start: u32, assignment: Assignment) -> Result<Part> {
        let target = self.expression()?;
        let value = self.optional()?;
        let end = self.end()?;
        Ok(Part::Stmt(Stmt::Assign {
            number,
            span: Span { start, end },
            target,
            assignment,
            value,
        }))
    }

    pub fn while_loop(&mut self, number: u32, start: u32) -> Result<Part> {
        let condition = self.expression()?;
        let body = self.branch()?;
        let end = self.end()?;
        Ok(Part::Stmt(Stmt::While {
            number,
            span: Span { start, end },
            condition,
            body,
        }))
    }

    pub fn do_while(&mut self, number: u32, start: u32) -> Result<Part> {
        let body = self.braced()?;
        let condition = self.expression()?;
        let end = self.end()?;
        Ok(Part::Stmt(Stmt::DoWhile {
            number,
            span: Span { start, end },
            body,
            condition,
        }))
    }

    pub fn for_loop(&mut self, number: u32, start: u32) -> Result<Part> {
        let variable = self.name()?;
        let low = self.expression()?;
        let high = self.expression()?;
        self.for_body(number, start, variable, low, high)
    }

    /// Takes the body of a loop over these numbers.
    fn for_body(
        &mut self,
        number: u32,
        start: u32,
        variable: Ident,
        low: Expr,
        high: Expr,
    ) -> Result<Part> {
        let body = self.branch()?;
        let end = self.end()?;
        Ok(Part::Stmt(Stmt::For {
            number,
            span: Span { start, end },
            variable,
            written: None,
            low,
            progression: Progression::RangeTo,
            high,
            body,
        }))
    }

    /// Takes a block.
    fn braced(&mut self) -> Result<Block> {
        match self.stack.pop() {
            Some(part) => block_of(part),
            None => Err(anyhow!("a block is missing")),
        }
    }

    /// Takes the parts of a form that is an expression.
    pub fn kind(&mut self, form: Form) -> Result<ExprKind> {
        match form {
            Form::Wrap(wrap) => self.wrapped(wrap),
            Form::Pair(pair) => self.paired(pair),
            Form::If => self.if_else(),
            Form::Return => self.returned(),
            Form::ReturnAt => self.returned_at(),
            Form::Call => self.call(),
            Form::LambdaCall => self.lambda_call(),
            Form::Template => self.template(),
            _ => Err(anyhow!("no expression")),
        }
    }

    fn wrapped(&mut self, wrap: Wrap) -> Result<ExprKind> {
        let a = self.boxed()?;
        Ok(wrap.around(a))
    }

    fn paired(&mut self, pair: Pair) -> Result<ExprKind> {
        let a = self.boxed()?;
        let b = self.boxed()?;
        Ok(pair.of(a, b))
    }

    fn if_else(&mut self) -> Result<ExprKind> {
        let condition = self.boxed()?;
        let then = self.branch()?;
        let otherwise = if self.is_at_end() {
            None
        } else {
            Some(self.branch()?)
        };
        Ok(ExprKind::If {
            condition,
            then,
            otherwise,
        })
    }

    fn returned(&mut self) -> Result<ExprKind> {
        let value = self.optional_boxed()?;
        Ok(ExprKind::Return { label: None, value })
    }

    fn returned_at(&mut self) -> Result<ExprKind> {
        let label = self.name()?;
        let value = self.optional_boxed()?;
        Ok(ExprKind::Return {
            label: Some(label),
            value,
        })
    }

    /// Takes the name of a function, and the arguments.
    fn called(&mut self) -> Result<(Ident, Items<Expr>)> {
        let callee = self.name()?;
        let mut arguments = Items::new(self.alloc);
        for _ in 0..self.stack.len() {
            if self.is_at_end() {
                break;
            }
            let e = self.expression()?;
            arguments.push(e)?;
        }
        Ok((callee, arguments))
    }

    fn call(&mut self) -> Result<ExprKind> {
        let (callee, arguments) = self.called()?;
        Ok(ExprKind::Call {
            callee,
            arguments,
            lambda: None,
        })
    }

    fn lambda_call(&mut self) -> Result<ExprKind> {
        let (callee, arguments) = self.called()?;
        let lambda = Boxed::new(self.alloc, empty_lambda(self.alloc))?;
        Ok(ExprKind::Call {
            callee,
            arguments,
            lambda: Some(lambda),
        })
    }

    fn template(&mut self) -> Result<ExprKind> {
        let mut pieces = Items::new(self.alloc);
        for _ in 0..self.stack.len() {
            if self.is_at_end() {
                break;
            }
            let piece = self.piece()?;
            pieces.push(piece)?;
        }
        Ok(ExprKind::Template(pieces))
    }

    /// Takes a piece of a string.
    fn piece(&mut self) -> Result<StringPart> {
        match self.stack.pop() {
            Some(part) => self.piece_of(part),
            None => Err(anyhow!("a piece is missing")),
        }
    }

    /// The piece that a part is.
    fn piece_of(&mut self, part: Part) -> Result<StringPart> {
        match part {
            Part::Atom(atom) => self.piece_of_atom(atom),
            other => Ok(StringPart::Inserted(self.expression_of(other)?)),
        }
    }

    /// A text, where the atom is `.`, and else what is inserted.
    fn piece_of_atom(&mut self, atom: Atom) -> Result<StringPart> {
        if atom.text.as_str() == "." {
            return text_piece(self.alloc);
        }
        Ok(StringPart::Inserted(self.tree_of(atom)?))
    }
}
