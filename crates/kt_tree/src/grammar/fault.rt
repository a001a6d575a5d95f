//! Why tokens are not read.
use std::alloc::AllocError;
use thiserror::Error;

/// Why tokens are no file. Places are those of tokens, from 0.
#[derive(Clone, Copy, Debug, PartialEq, Eq, Error)]
pub enum ParseFault {
    /// No row and no expected terminal fits this token.
    #[error("unexpected token")]
    Syntax { token: u32 },
    /// This token stands right after a tree of height 201, or would begin the 701st open part.
    #[error("nesting is too deep")]
    TooDeep { token: u32 },
    /// There is no memory for the trees.
    #[error("no memory")]
    NoMemory,
}

impl From<AllocError> for ParseFault {
    ghost use Rattle.std.specs.Prelude.{◌≡◌};
    ghost use Rattle.kt_tree.specs.declared.grammar.fault.ParseFault.TheVariants.{NoMemory};

    ghost from_gives = { λ _ e. e ≡ NoMemory };

    fn from(_error: AllocError) -> ParseFault {
        ParseFault::NoMemory
    }
}
