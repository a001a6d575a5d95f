//! A reader over the tokens of a line.
use crate::fault::Fault;
use kt_tree::ast::{Ident, ModifierKind};
use kt_tree::{Kind, Names, Span, Tokens};
use std::alloc::Global;

/// What a token is, where its value does not count.
#[derive(Clone, Copy, Debug, PartialEq, Eq)]
pub enum Mark {
    As,
    Assign,
    Arrow,
    Class,
    CloseBrace,
    CloseRound,
    Colon,
    Comma,
    End,
    Fun,
    Interface,
    Is,
    Minus,
    Name,
    OpenBrace,
    OpenRound,
    Question,
    Quote,
    Semicolon,
    Val,
    Var,
    /// A token that stands for itself as a value, or one that no form has.
    Other,
}

fn mark_of(kind: &Kind) -> Mark {
    match kind {
        Kind::As => Mark::As,
        Kind::Assign => Mark::Assign,
        Kind::Arrow => Mark::Arrow,
        Kind::Class => Mark::Class,
        Kind::CloseBrace => Mark::CloseBrace,
        Kind::CloseRound => Mark::CloseRound,
        Kind::Colon => Mark::Colon,
        Kind::Comma => Mark::Comma,
        Kind::End => Mark::End,
        Kind::Fun => Mark::Fun,
        Kind::Interface => Mark::Interface,
        Kind::Is => Mark::Is,
        Kind::Minus => Mark::Minus,
        Kind::Id(_) => Mark::Name,
        Kind::OpenBrace => Mark::OpenBrace,
        Kind::OpenRound => Mark::OpenRound,
        Kind::Question => Mark::Question,
        Kind::Open | Kind::Close => Mark::Quote,
        Kind::Semicolon => Mark::Semicolon,
        Kind::Val => Mark::Val,
        Kind::Var => Mark::Var,
        _ => Mark::Other,
    }
}

fn modifier_named(word: &str) -> Option<ModifierKind> {
    match word {
        "public" => Some(ModifierKind::Public),
        "private" => Some(ModifierKind::Private),
        "open" => Some(ModifierKind::Open),
        "abstract" => Some(ModifierKind::Abstract),
        "final" => Some(ModifierKind::Final),
        "override" => Some(ModifierKind::Override),
        "inline" => Some(ModifierKind::Inline),
        _ => None,
    }
}

/// The tokens of a line, the place of the next one, and the span of the one before it.
#[derive(Drop)]
pub struct Reader {
    alloc: Global,
    tokens: Tokens,
    at: usize,
    last: Span,
}

impl Reader {
    pub fn new(alloc: Global, tokens: Tokens) -> Reader {
        Reader {
            alloc,
            tokens,
            at: 0,
            last: Span { start: 0, end: 0 },
        }
    }

    pub fn alloc(&self) -> Global {
        self.alloc
    }

    /// How many tokens there are, which bounds each list of forms.
    pub fn len(&self) -> usize {
        self.tokens.list.len()
    }

    /// The kind of the next token.
    pub fn kind(&self) -> Option<&Kind> {
        let token = self.tokens.list.get(self.at)?;
        Some(&token.kind)
    }

    /// The mark of the next token; behind the last one that of the end.
    pub fn mark(&self) -> Mark {
        match self.kind() {
            Some(kind) => mark_of(kind),
            None => Mark::End,
        }
    }

    /// The span of the next token; behind the last one that of the last.
    pub fn span(&self) -> Span {
        match self.tokens.list.get(self.at) {
            Some(token) => token.span,
            None => self.last,
        }
    }

    /// The span from a place to the end of the token that was read last.
    pub fn since(&self, start: u32) -> Span {
        Span {
            start,
            end: self.last.end,
        }
    }

    pub fn skip(&mut self) {
        self.last = self.span();
        self.at = self.at.saturating_add(1);
    }

    /// Reads the next token where it has this mark, and says whether it has.
    pub fn take(&mut self, mark: Mark) -> bool {
        let fits = self.mark() == mark;
        if fits {
            self.skip();
        }
        fits
    }

    /// Reads a token with this mark.
    pub fn expect(&mut self, mark: Mark) -> Result<(), Fault> {
        if self.take(mark) {
            Ok(())
        } else {
            Err(self.unread())
        }
    }

    /// The fault of the next token.
    pub fn unread(&self) -> Fault {
        Fault::Unread(self.span())
    }

    /// Reads a name.
    pub fn name(&mut self) -> Result<Ident, Fault> {
        let span = self.span();
        let Some(Kind::Id(name)) = self.kind() else {
            return Err(self.unread());
        };
        let name = *name;
        self.skip();
        Ok(Ident { name, span })
    }

    /// The text of the next token where it is a name.
    fn word(&self) -> Option<&str> {
        match self.kind() {
            Some(Kind::Id(name)) => text_of(&self.tokens.names, *name),
            _ => None,
        }
    }

    /// Whether the next token is this word.
    pub fn is_word(&self, word: &str) -> bool {
        match self.word() {
            Some(text) => text == word,
            None => false,
        }
    }

    /// The modifier that the next token is.
    pub fn modifier(&self) -> Option<ModifierKind> {
        modifier_named(self.word()?)
    }

    /// The names of the line.
    pub fn into_names(self) -> Names {
        let Reader { tokens, .. } = self;
        let Tokens { names, list } = tokens;
        drop(list);
        names
    }
}

/// The text of a name.
pub fn text_of(names: &Names, name: u32) -> Option<&str> {
    if (name as usize) < names.len() {
        Some(names.text(name))
    } else {
        None
    }
}
