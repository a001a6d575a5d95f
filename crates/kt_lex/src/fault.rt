//! Why a source has no tokens.
use kt_tree::{NoMemory, Span};
use thiserror::Error;

/// Why a source has no tokens.
#[derive(Debug, Drop, Error)]
pub enum LexFault {
    /// No token can be formed: the span of the first character of the failing token, in bytes.
    #[error("no token begins here")]
    Bad { span: Span },
    /// There is no memory for the tokens.
    #[error("no memory")]
    NoMemory,
}

impl From<NoMemory> for LexFault {
    ghost use Rattle.std.specs.Prelude.{◌≡◌};
    ghost use Rattle.kt_lex.specs.declared.fault.LexFault.TheVariants.{NoMemory};

    ghost from_gives = { λ _ e. e ≡ NoMemory };

    fn from(_error: NoMemory) -> LexFault {
        LexFault::NoMemory
    }
}
