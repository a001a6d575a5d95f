use crate::mark::Mark;
use crate::words::get_bit;
use std::marker::Model;

/// What holds where: which nodes are reached, and for each node a row of bits, the state after its effects.
#[derive(Drop)]
pub struct Rows {
    pub(crate) pairs: u32,
    pub(crate) width: usize,
    pub(crate) marks: Vec<Mark>,
    pub(crate) words: Vec<u64>,
}

impl Model for Rows {
    ghost use Rattle.kt_solve.specs.Table.{Table, AreRows, table_of};

    ghost Value = { Table };

    ghost view = { λ r. table_of r.pairs r.width r.marks.items r.words.items };

    ghost invariant = { λ r. AreRows r.pairs r.width r.marks.items r.words.items };
}

impl Rows {
    ghost use Rattle.std.specs.Prelude.{◌≡◌, ◌<◌, length};
    ghost use Rattle.kt_solve.specs.Table.{reached_at, holds_at};

    /// Whether some path ends at the node. It takes no memory.
    pub fn reached(&self, node: u32) -> bool
        requires { node < length self.now.reached }
        ensures { result ≡ reached_at self.now node }
    {
        let mark = self.marks[node as usize];
        mark.is_reached()
    }

    /// Whether the node is reached and the pair is set along every path to it, after the node's effects. It takes no
    /// memory.
    pub fn holds(&self, node: u32, pair: u32) -> bool
        requires node { node < length self.now.reached }
        requires pair { pair < self.now.pairs }
        ensures { result ≡ holds_at self.now node pair }
    {
        let start = node as usize * self.width;
        let reached = self.marks[node as usize].is_reached();
        reached && get_bit(&self.words[start..start + self.width], pair)
    }
}
