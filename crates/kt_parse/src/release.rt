//! Letting phrases go. A chain of signs before an operand opens nothing that counts for the depth, so it nests as deep as the source is long
//! before it is seen that its trees are too high: dropped as it is, it would take native stack for each sign.
ghost use Rattle.std.specs.Prelude.{◌≡◌, ◌++◌, OnOk};

use kt_tree::grammar::{Phrase, Values};
use sqlite_items::Items;
use std::alloc::AllocError;

/// Puts the parts on the stack, the first one on top.
fn spread(mut parts: Items<Phrase>, values: &mut Values<Phrase>) -> Result<(), AllocError>
    ensures { OnOk result (values.new ≡ parts ++ values.old) }
{
    'parts: while let Some(part) = parts.pop() {
        values.push(part)?;
    }
    Ok(())
}

/// Takes the phrases off one by one, each before its parts.
fn take_apart(values: &mut Values<Phrase>) -> Result<(), AllocError> {
    'phrases: while let Some(phrase) = values.pop() {
        let Phrase { parts, .. } = phrase;
        spread(parts, values)?;
    }
    Ok(())
}

/// Lets the phrases go, in no more native stack for deep ones.
pub fn let_go(mut values: Values<Phrase>) {
    let _ = take_apart(&mut values);
}
