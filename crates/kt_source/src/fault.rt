//! Why a source is no file.
use kt_model::finding::Finding;
use kt_tree::NoMemory;

/// Why a source is no file: a rule on its bytes, its tokens or its syntax is violated, or there is no memory.
#[derive(Clone, Copy, Debug)]
pub enum SourceFault {
    Refused(Finding),
    NoMemory,
}

impl From<NoMemory> for SourceFault {
    ghost use Rattle.std.specs.Prelude.{◌≡◌};
    ghost use Rattle.kt_source.specs.declared.fault.SourceFault.TheVariants.{NoMemory};

    ghost from_gives = { λ _ e. e ≡ NoMemory };

    fn from(_error: NoMemory) -> SourceFault {
        SourceFault::NoMemory
    }
}
