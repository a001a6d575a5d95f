//! A text of words and brackets.
use kt_tree::ast::TypeRef;
use kt_tree::{Names, Span};
use std::alloc::{AllocError, Global};

/// An error where there was no memory for what was written.
pub type Written = Result<(), AllocError>;

/// A text of words and brackets, with a space before each word that does not stand first in its bracket.
#[derive(Drop)]
pub struct Writer {
    text: String,
    names: Names,
    /// Whether the number and the span of a tree stand before it.
    numbers: bool,
    /// Whether the next word stands right behind what is written.
    joins: bool,
}

impl Writer {
    /// An empty text. Names have their numbers in this table.
    pub fn new(alloc: Global, names: Names, numbers: bool) -> Writer {
        Writer {
            text: String::new(alloc),
            names,
            numbers,
            joins: false,
        }
    }

    /// What was written.
    pub fn into_text(self) -> String {
        self.text
    }

    /// Writes the space before a word, unless it stands first.
    fn space(&mut self) -> Written {
        if self.joins {
            self.joins = false;
            Ok(())
        } else {
            self.text.push(' ')
        }
    }

    pub fn word(&mut self, word: &str) -> Written {
        self.space()?;
        self.text.push_str(word)
    }

    /// Writes a bracket or a mark that the next word stands right behind.
    pub fn begin(&mut self, bracket: &str) -> Written {
        self.word(bracket)?;
        self.joins = true;
        Ok(())
    }

    /// Writes a bracket right behind what is written.
    pub fn end(&mut self, bracket: &str) -> Written {
        self.joins = false;
        self.text.push_str(bracket)
    }

    /// Opens a round bracket with this word in it.
    pub fn open(&mut self, word: &str) -> Written {
        self.begin("(")?;
        self.word(word)
    }

    pub fn close(&mut self) -> Written {
        self.end(")")
    }

    pub fn name(&mut self, number: u32) -> Written {
        self.space()?;
        self.text.push_str(text_of(&self.names, number))
    }

    /// Opens a round bracket with a word and a name.
    pub fn open_name(&mut self, word: &str, name: u32) -> Written {
        self.open(word)?;
        self.name(name)
    }

    pub fn written_type(&mut self, written: TypeRef) -> Written {
        self.name(written.name.name)?;
        if written.nullable {
            self.text.push('?')
        } else {
            Ok(())
        }
    }

    /// Opens a round bracket with a word and a type.
    pub fn open_type(&mut self, word: &str, written: TypeRef) -> Written {
        self.open(word)?;
        self.written_type(written)
    }

    /// Writes a type behind a colon, where there is one.
    pub fn typed(&mut self, written: Option<TypeRef>) -> Written {
        match written {
            Some(written) => {
                self.begin(":")?;
                self.written_type(written)
            }
            None => Ok(()),
        }
    }

    pub fn int(&mut self, value: u32) -> Written {
        self.space()?;
        write!(self.text, "{value}")
    }

    /// Writes a tree's number and its span in bytes before it, where they are shown.
    pub fn number(&mut self, number: u32, span: Span) -> Written {
        if !self.numbers {
            return Ok(());
        }
        self.space()?;
        self.joins = true;
        let Span { start, end } = span;
        write!(self.text, "{number}@{start}-{end}:")
    }

    /// Writes the bytes of a piece of a string: those that print as themselves, others in hexadecimal digits behind a backslash.
    pub fn bytes(&mut self, bytes: &[u8]) -> Written {
        self.word("'")?;
        for byte in bytes {
            self.byte(*byte)?;
        }
        self.end("'")
    }

    fn byte(&mut self, byte: u8) -> Written {
        match byte {
            b'\'' | b'\\' => write!(self.text, "\\{byte:02x}"),
            b' '..=b'~' => self.text.push(char::from(byte)),
            _ => write!(self.text, "\\{byte:02x}"),
        }
    }
}

/// The name with this number.
fn text_of(names: &Names, number: u32) -> &str {
    if (number as usize) < names.len() {
        names.text(number)
    } else {
        "?"
    }
}
