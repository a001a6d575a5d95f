//! What modifiers stand before.

/// A declaration that modifiers may stand before.
#[derive(Clone, Copy, Debug, PartialEq, Eq)]
pub enum Modified {
    Class,
    Interface,
    /// A function of the file's top.
    Function,
    /// A function or property in the braces of a class or interface.
    Member,
    /// A parameter of a constructor that is a property.
    Property,
    /// A parameter of a constructor that is none.
    Parameter,
}
