//! What has a height.
ghost use Rattle.std.specs.Prelude.{◌≡◌, ℕ};
ghost use Rattle.kt_height.specs.Height.{expr_height, stmt_height, lambda_height};

use crate::walk::{of_expr, of_lambda, of_stmt};
use kt_tree::ast::{Expr, Lambda, Stmt};

/// A tree: an expression, a statement or a lambda.
pub trait Height {
    ghost measure: { Self → ℕ };

    /// The height of the tree: one more than the greatest height of the trees right within, so 1 where there are none, and 201
    /// for all that are higher than 200. What stands between, as a block, a branch or a `catch`, is no tree and adds nothing. The
    /// left side of an assignment is no tree either where it is a name or a member behind `.`: there only the receiver counts;
    /// asked by itself it has the height that it has as a tree.
    fn height(&self) -> u32
        ensures { result ≡ measure self.now };
}

impl Height for Expr {
    ghost measure = { expr_height };

    fn height(&self) -> u32 {
        of_expr(self)
    }
}

impl Height for Stmt {
    ghost measure = { stmt_height };

    fn height(&self) -> u32 {
        of_stmt(self)
    }
}

impl Height for Lambda {
    ghost measure = { lambda_height };

    fn height(&self) -> u32 {
        of_lambda(self)
    }
}
