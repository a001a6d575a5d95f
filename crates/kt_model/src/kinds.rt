//! Types.
ghost use Rattle.std.specs.Prelude.{◌≡◌};
ghost use Rattle.kt_model.specs.Subtypes.{class_of, head_of};

use sqlite_items::Items;

/// What a type is without its mark `?`. `Class` holds the number of a class of the table; numbers below 5 have heads of their own.
#[derive(Clone, Copy, Debug, PartialEq, Eq)]
pub enum Head {
    Any,
    Nothing,
    Unit,
    Boolean,
    Int,
    Str,
    Class(u32),
}

impl Head {
    /// The head of the class with this number.
    pub fn of_class(class: u32) -> Head
        ensures { result ≡ head_of class }
    {
        match class {
            0 => Head::Any,
            1 => Head::Unit,
            2 => Head::Boolean,
            3 => Head::Int,
            4 => Head::Str,
            _ => Head::Class(class),
        }
    }

    /// The number of the head's class; `Nothing` has none.
    pub fn class(self) -> Option<u32>
        ensures { result ≡ class_of self }
    {
        match self {
            Head::Any => Some(0),
            Head::Nothing => None,
            Head::Unit => Some(1),
            Head::Boolean => Some(2),
            Head::Int => Some(3),
            Head::Str => Some(4),
            Head::Class(class) => Some(class),
        }
    }
}

/// A type of the language. (`Type` is a word of clauses.)
#[derive(Clone, Copy, Debug, PartialEq, Eq)]
pub struct KtType {
    pub head: Head,
    pub nullable: bool,
}

/// Types. Clauses see their list.
pub type Types = Items<KtType>;
