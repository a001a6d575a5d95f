/// What a node does to a pair. A copy reads the state before the node's effects.
#[derive(Clone, Copy, Debug, PartialEq, Eq)]
pub enum Transfer {
    /// The pair stays as it was.
    Keep,
    /// The pair is set.
    Set,
    /// The pair is not set.
    Clear,
    /// The pair is set where this pair was.
    CopyFrom(u32),
}

impl Transfer {
    ghost use Rattle.std.specs.Prelude.{◌≡◌, ℕ, ◌+◌, ◌<◌, ◌≤◌, ◌↔◌, IsTrue};
    ghost use Rattle.kt_solve.specs.Flow.{moved, TransferFits};
    ghost use Rattle.kt_solve.specs.Orders.{CanLose};

    /// What an effect says of the pair `places` into its range.
    pub(crate) fn moved(self, places: u32) -> Transfer
        requires { TransferFits 4294967295 places self }
        ensures { result ≡ moved self places }
    {
        match self {
            Transfer::CopyFrom(source) => Transfer::CopyFrom(source + places),
            other => other,
        }
    }

    /// Whether the pair can be lost: it is cleared, or copied into.
    pub(crate) fn can_lose(self) -> bool
        ensures { IsTrue result ↔ CanLose self }
    {
        match self {
            Transfer::Clear | Transfer::CopyFrom(_) => true,
            Transfer::Keep | Transfer::Set => false,
        }
    }
}

/// An edge from a node to a node.
#[derive(Clone, Copy, Debug, PartialEq, Eq)]
pub struct Edge {
    pub from: u32,
    pub to: u32,
}

/// One transfer for each of `count` pairs from `first` on, at one node. The pair copied from moves along: the pair
/// `first + i` copies from `source + i`.
#[derive(Clone, Copy, Debug, PartialEq, Eq)]
pub struct Effect {
    pub node: u32,
    pub first: u32,
    pub count: u32,
    pub transfer: Transfer,
}

impl Effect {
    ghost use Rattle.std.specs.Prelude.{◌≡◌};
    ghost use Rattle.kt_solve.specs.Flow.{in_range};

    /// Whether a pair is in the effect's range.
    pub(crate) fn covers(self, pair: u32) -> bool
        ensures { result ≡ in_range self pair }
    {
        self.first <= pair && pair - self.first < self.count
    }
}
