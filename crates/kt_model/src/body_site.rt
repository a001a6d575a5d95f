//! What the rules on declarations look at inside bodies.
use kt_tree::ast::{Ident, TypeRef};

/// A place inside a body at which the rules on declarations are tried.
#[derive(Clone, Copy, Debug, PartialEq, Eq)]
pub enum BodySite {
    /// A written type: of a local, a test, a cast, a caught exception, a variable of a loop, a `when` or a lambda.
    Written(TypeRef),
    /// A local with neither a written type nor an initialiser.
    Untyped(Ident),
}
