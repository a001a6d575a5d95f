//! The state of a run of a file, and why an evaluation gives no value.
use crate::frame::Frame;
use kt_mean::{Limit, Way};
use std::alloc::AllocError;

/// The locals of the call under way, how many calls are under way, the steps left, the cells that objects have taken, and the bytes of the texts that
/// the run made.
#[derive(Drop)]
pub(crate) struct State {
    pub(crate) frame: Frame,
    pub(crate) calls: u32,
    pub(crate) steps: u64,
    pub(crate) cells: u32,
    pub(crate) text: u64,
}

/// Why an evaluation gives no value: by the meaning, or for a reason outside it.
#[derive(Drop)]
pub(crate) enum Halt {
    Way(Way),
    Over(Limit),
    OutputFault,
    NoMemory,
}

impl From<AllocError> for Halt {
    ghost use Rattle.std.specs.Prelude.{◌≡◌};
    ghost use Rattle.kt_run.specs.declared.state.Halt.TheVariants as halt;

    ghost from_gives = { λ _ h. h ≡ halt.NoMemory };

    fn from(_: AllocError) -> Halt {
        Halt::NoMemory
    }
}
