//! Phrases, and how far reading is.
ghost use Rattle.std.specs.Prelude.{◌≡◌, ℕ, ◌∷◌, [], take, drop, reverse, OnOk, IfOk, MatchOption};

use sqlite_items::Items;
use std::alloc::{AllocError, Global};
use std::marker::Model;

/// What a phrase is. Those down to `For` are trees, and count for the height.
#[derive(Clone, Copy, Debug, PartialEq, Eq)]
pub enum Form {
    Int,
    Bool,
    Null,
    This,
    Name,
    Template,
    Paren,
    Call,
    Lambda,
    Member,
    SafeMember,
    MemberCall,
    SafeMemberCall,
    NotNull,
    Prefixed,
    Cast,
    Sum,
    Product,
    Compare,
    Equal,
    And,
    Or,
    Elvis,
    IsType,
    If,
    When,
    Try,
    Return,
    Throw,
    Jump,
    NamePiece,
    ThisPiece,
    Local,
    Assignment,
    While,
    DoWhile,
    For,
    List,
    Initialiser,
    Getter,
    FunctionType,
    Returns,
    ReturnsNotNull,
    CallsInPlace,
    Absent,
    Subject,
    SubjectName,
    ElseBranch,
    ConditionBranch,
    TypeCondition,
    Class,
    ClassParameter,
    Interface,
    Supertype,
    Property,
    Function,
    Parameter,
    WrittenType,
    FunctionBlock,
    Contract,
    Block,
    LambdaParameter,
    Catch,
    NameTarget,
    MemberTarget,
    Token,
}

/// The tokens from place `first` up to place `last`, as what they were read. `height` is the greatest height of a tree
/// in it, no more than 201.
#[derive(Drop)]
pub struct Phrase {
    pub form: Form,
    pub first: u32,
    pub last: u32,
    pub height: u32,
    pub parts: Items<Phrase>,
}

/// A stack. Clauses see its items, the last one that was put on it first.
#[derive(Drop)]
pub struct Values<T> {
    items: Vec<T>,
}

impl<T> Model for Values<T> {
    ghost use Rattle.std.specs.Prelude.{List, reverse};
    ghost use Rattle.std.specs.Coded.{coded_list};

    ghost Value = { List T };

    ghost coded = { coded_list T.code };

    ghost view = { λ s. reverse s.items.items };
}

impl<T> Values<T> {
    /// An empty stack, which takes no memory.
    pub fn new(alloc: Global) -> Values<T>
        ensures { result ≡ [] }
    {
        Values {
            items: Vec::new(alloc),
        }
    }

    /// Takes the top off.
    pub fn pop(&mut self) -> Option<T>
        ensures { MatchOption result ((self.old ≡ []) × (self.new ≡ [])) (λ top. self.old ≡ top ∷ self.new) }
    {
        self.items.pop()
    }

    /// Takes so many off, or all where there are fewer; they are answered in the order in which they came.
    pub fn pop_many(&mut self, count: usize) -> Result<Items<T>, AllocError>
        ensures taken { IfOk result (λ xs. xs ≡ reverse (take count self.old)) }
        ensures left { OnOk result (self.new ≡ drop count self.old) }
    {
        let at = self.items.len().saturating_sub(count);
        Ok(Items::from_vec(self.items.split_off(at)?))
    }
}

impl<T: Drop> Values<T> {
    /// Puts an item on top.
    pub fn push(&mut self, item: T) -> Result<(), AllocError>
        ensures { OnOk result (self.new ≡ item ∷ self.old) }
    {
        self.items.push(item)?;
        Ok(())
    }
}

/// How far reading is.
#[derive(Drop)]
pub struct State {
    /// The place of the next token.
    pub at: u32,
    /// How many parts that count for the depth are open.
    pub depth: u32,
    /// Whether a tree that is too high ends right before the next token.
    pub high: bool,
    pub values: Values<Phrase>,
}
