// How a call ends, and what may stop it before.
ghost use Rattle.std.specs.Prelude.{◌≡◌};
ghost use Rattle.ktflow.specs.Course.{line_of, status_of, line_of_run, status_of_run};
ghost use Rattle.ktflow.specs.Executing.{ending_of};
ghost use Rattle.kt_mean.specs.declared.states.RunEnding.TheVariants.{Uncaught};
ghost use Rattle.ktflow.specs.Invoking.{line_of_stop, status_of_stop};
ghost use Rattle.ktflow.specs.Lines.{text_of_line};

use crate::line::Line;
use kt_mean::{Exception, RunEnding};

/// How a call ends.
#[derive(Drop)]
pub enum Ending {
    /// The words have no shape.
    Usage,
    /// The written rules refuse the source, with this report.
    Refused(Vec<u8>),
    /// The source was run.
    Ran(RunEnding),
}

/// What stops a call before its text on `err`: an ending, or a fault or want of memory before it.
#[derive(Drop)]
pub enum Stop {
    /// The written meaning ended the call.
    Ended(Ending),
    /// A fetch of FILE failed.
    SourceFault,
    /// A take failed.
    InputFault,
    /// A put on `out` failed.
    OutputFault,
    /// There was no memory.
    NoMemory,
}

fn line_of_exception(exception: &Exception) -> Line<'_>
    ensures { text_of_line result ≡ line_of_run (Uncaught exception.now) }
{
    match exception {
        Exception::DivisionByZero => Line::plain(b"uncaught ArithmeticException: / by zero\n"),
        Exception::FailedRequirement => {
            Line::plain(b"uncaught IllegalArgumentException: Failed requirement.\n")
        }
        Exception::FailedCheck => Line::plain(b"uncaught IllegalStateException: Check failed.\n"),
        Exception::Error(text) => Line {
            head: b"uncaught IllegalStateException: ",
            message: text.bytes(),
            end: b"\n",
        },
    }
}

fn line_of_ending(ending: &RunEnding) -> Line<'_>
    ensures { text_of_line result ≡ line_of_run ending.now }
{
    match ending {
        RunEnding::Done => Line::plain(b""),
        RunEnding::Steps => Line::plain(b"limit steps\n"),
        RunEnding::Calls => Line::plain(b"limit calls\n"),
        RunEnding::Store => Line::plain(b"limit store\n"),
        RunEnding::Text => Line::plain(b"limit text\n"),
        RunEnding::Uncaught(exception) => line_of_exception(exception),
    }
}

fn status_of_ending(ending: &RunEnding) -> u8
    ensures { result ≡ status_of_run ending.now }
{
    match ending {
        RunEnding::Done => 0,
        RunEnding::Steps | RunEnding::Calls | RunEnding::Store | RunEnding::Text => 9,
        RunEnding::Uncaught(_) => 7,
    }
}

impl Ending {
    fn line(&self) -> Line<'_>
        ensures { text_of_line result ≡ line_of (ending_of self.now) }
    {
        match self {
            Ending::Usage => {
                Line::plain(b"usage: ktflow check FILE or ktflow run [--steps N] FILE\n")
            }
            Ending::Refused(report) => Line::plain(report.as_slice()),
            Ending::Ran(ending) => line_of_ending(ending),
        }
    }

    fn status(&self) -> u8
        ensures { result ≡ status_of (ending_of self.now) }
    {
        match self {
            Ending::Usage => 2,
            Ending::Refused(_) => 1,
            Ending::Ran(ending) => status_of_ending(ending),
        }
    }
}

impl Stop {
    // The text on `err`. After a failed put on `out` there is none, so nothing is put after it.
    pub(crate) fn line(&self) -> Line<'_>
        ensures { text_of_line result ≡ line_of_stop self.now }
    {
        match self {
            Stop::Ended(ending) => ending.line(),
            Stop::SourceFault => Line::plain(b"cannot read source\n"),
            Stop::InputFault => Line::plain(b"cannot read input\n"),
            Stop::OutputFault => Line::plain(b""),
            Stop::NoMemory => Line::plain(b"no memory\n"),
        }
    }

    // The status, where the text on `err` could be put.
    pub(crate) fn status(&self) -> u8
        ensures { result ≡ status_of_stop self.now }
    {
        match self {
            Stop::Ended(ending) => ending.status(),
            Stop::SourceFault => 3,
            Stop::InputFault => 4,
            Stop::OutputFault => 5,
            Stop::NoMemory => 6,
        }
    }
}
