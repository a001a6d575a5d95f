//! Puts a whole text on an output.
ghost use Rattle.kt_outside.specs.Texts.{PutsAll};

use crate::traits::{Output, Put};

/// A put failed.
#[derive(Clone, Copy, Debug, PartialEq, Eq)]
pub struct PutFault;

/// Puts the text, piece by piece. `PutFault` where a put failed, after which nothing is put: then a front of the text was put.
pub fn put_all<O: Output>(out: &mut O, text: &[u8]) -> Result<(), PutFault>
    ensures { PutsAll (O.state out.old) (O.state out.new) text.now result }
{
    let mut at = 0;
    while at < text.len() {
        match out.put(&text[at..]) {
            Put::Put(count) => at += count,
            Put::Failed => return Err(PutFault),
        }
    }
    Ok(())
}
