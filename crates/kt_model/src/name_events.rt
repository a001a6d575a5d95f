//! What happens to names in the bodies of a file, one after another.
use kt_tree::ast::{Ident, TypeRef};

/// What happens to names, in the order in which it counts. A tree is named by its number; `name` is where the name stands.
#[derive(Clone, Copy, Debug, PartialEq, Eq)]
pub enum NameEvent {
    /// A scope begins: that of a function, a block, or a branch in braces.
    Opens,
    /// The innermost open scope ends.
    Closes,
    /// A parameter of a function, which is no tree, with its type.
    Parameter {
        name: Ident,
        written: TypeRef,
    },
    /// A local, behind all that its initialiser does, with its type where one is written.
    Local {
        tree: u32,
        name: Ident,
        is_var: bool,
        written: Option<TypeRef>,
    },
    /// A name that stands alone as an expression.
    Reads {
        tree: u32,
        name: Ident,
    },
    /// The name of a call.
    Calls {
        tree: u32,
        name: Ident,
    },
    /// The name on the left side of an assignment, also where its old value is read.
    Assigns {
        tree: u32,
        name: Ident,
    },
}
