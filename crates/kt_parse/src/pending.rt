//! The symbols that are still to be read.
ghost use Rattle.std.specs.Prelude.{◌≡◌, [], ◌∷◌, ◌++◌, OnOk};

use kt_tree::grammar::{Symbol, Values};
use std::alloc::AllocError;

/// Puts the symbols on the stack, the first one on top.
pub fn push_all(pending: &mut Values<Symbol>, symbols: &[Symbol]) -> Result<(), AllocError>
    ensures { OnOk result (pending.new ≡ symbols.now ++ pending.old) }
{
    let mut rest = symbols;
    'symbols: while let Some((last, front)) = rest.split_last() {
        pending.push(*last)?;
        rest = front;
    }
    Ok(())
}
