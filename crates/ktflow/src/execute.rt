// Checks a source and runs it.
ghost use Rattle.std.specs.Prelude.{◌≡◌, List, ℕ};
ghost use Rattle.ktflow.specs.Executing.{Executes, stop_told};

use crate::ending::{Ending, Stop};
use kt_check::{Verdict, check};
use kt_mean::RunEnding;
use kt_outside::Output;
use kt_report::report;
use kt_run::{End, run_file};
use kt_sound::{files_have_programs, files_never_wrong};
use std::alloc::Global;

/// Checks the source and, where the written rules refuse nothing, runs it with so many steps, and puts its text on `out`.
///
/// Answers the refusal or the run's ending; `OutputFault` where a put failed, after which nothing is put; `NoMemory` where there was no
/// memory. Before the verdict nothing is put. The interpreter asks that no wrong use comes, which soundness gives of what is accepted.
pub(crate) fn execute<O: Output>(alloc: Global, source: &[u8], steps: u64, out: &mut O) -> Stop
    ensures { (input : List ℕ) → Executes source.now steps input (O.state out.old) (O.state out.new) result }
{
    match check(alloc, source) {
        Ok(Verdict::Accepted(accepted)) => {
            files_have_programs();
            files_never_wrong();
            let end = run_file(
                alloc,
                &accepted.file,
                &accepted.uses,
                accepted.main,
                steps,
                out,
            );
            stop_of(end)
        }
        Ok(Verdict::Refused(finding)) => match report(alloc, source, &finding) {
            Ok(text) => Stop::Ended(Ending::Refused(text)),
            Err(_) => Stop::NoMemory,
        },
        Err(_) => Stop::NoMemory,
    }
}

fn stop_of(end: End) -> Stop
    ensures { result ≡ stop_told end }
{
    match end {
        End::Done => Stop::Ended(Ending::Ran(RunEnding::Done)),
        End::Steps => Stop::Ended(Ending::Ran(RunEnding::Steps)),
        End::Calls => Stop::Ended(Ending::Ran(RunEnding::Calls)),
        End::Store => Stop::Ended(Ending::Ran(RunEnding::Store)),
        End::Text => Stop::Ended(Ending::Ran(RunEnding::Text)),
        End::Uncaught(exception) => Stop::Ended(Ending::Ran(RunEnding::Uncaught(exception))),
        End::WriteFault => Stop::OutputFault,
        End::NoMemory => Stop::NoMemory,
    }
}
