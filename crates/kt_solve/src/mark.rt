/// How far the search has come at a node.
#[derive(Clone, Copy, Debug)]
pub(crate) enum Mark {
    /// No path to the node has been found.
    Unreached,
    /// A path ends at the node, and its edges are to be read with the row that it has.
    Waiting,
    /// Its edges have been read with the row that it has.
    Read,
}

impl Mark {
    ghost use Rattle.std.specs.Prelude.{◌≡◌};
    ghost use Rattle.kt_solve.specs.Marks.{is_reached, is_waiting};

    /// Whether a path ends at the node.
    pub(crate) fn is_reached(self) -> bool
        ensures { result ≡ is_reached self }
    {
        match self {
            Mark::Unreached => false,
            Mark::Waiting | Mark::Read => true,
        }
    }

    /// Whether the edges of the node are to be read.
    pub(crate) fn is_waiting(self) -> bool
        ensures { result ≡ is_waiting self }
    {
        match self {
            Mark::Waiting => true,
            Mark::Unreached | Mark::Read => false,
        }
    }
}
