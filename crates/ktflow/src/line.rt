// The text on `err`, in pieces, so that an exception's message is put where it stands.
ghost use Rattle.ktflow.specs.Lines.{text_of_line};
ghost use Rattle.kt_outside.specs.Texts.{PutsAll};
ghost use Rattle.std.specs.Prelude.{◌≡◌};

use kt_outside::{Output, PutFault, put_all};

/// What stands before the message of an exception, the message, and what stands behind it. Any other text is the first piece alone.
#[derive(Clone, Copy)]
pub(crate) struct Line<'a> {
    pub(crate) head: &'a [u8],
    pub(crate) message: &'a [u8],
    pub(crate) end: &'a [u8],
}

impl<'a> Line<'a> {
    /// A text that has no message.
    pub(crate) fn plain(text: &'a [u8]) -> Line<'a>
        ensures { text_of_line result ≡ text.now }
    {
        Line {
            head: text,
            message: b"",
            end: b"",
        }
    }
}

/// Puts the line. It takes no memory, so there is none to want once something is put.
pub(crate) fn put_line<E: Output>(err: &mut E, line: Line<'_>) -> Result<(), PutFault>
    ensures { PutsAll (E.state err.old) (E.state err.new) (text_of_line line.entry) result }
{
    match put_all(err, line.head) {
        Ok(()) => {}
        Err(fault) => return Err(fault),
    }
    match put_all(err, line.message) {
        Ok(()) => put_all(err, line.end),
        Err(fault) => Err(fault),
    }
}
