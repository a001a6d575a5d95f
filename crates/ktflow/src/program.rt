// The program.
ghost use Rattle.std.specs.Prelude.{map, string_bytes};
ghost use Rattle.kt_outside.specs.Outside.{OutputState};
ghost use Rattle.ktflow.specs.Program.{OneCourse};
ghost use Rattle.ktflow.specs.Invoking.{Invocation, Performs, Reports, outside};
ghost use Rattle.ktflow.specs.Headline.{IsHeadline};
ghost use Rattle.ktflow.specs.Clauses.{IsProgram, HasStatuses, HasOrder, HasFronts, IsComplete};

use crate::ending::{Ending, Stop};
use crate::execute::execute;
use crate::line::put_line;
use crate::request::read_request;
use crate::source::{FetchFault, fetch_source};
use kt_outside::{Input, Library, Output};
use std::alloc::Global;

/// Does all that the program does with these words, and answers its status.
///
/// `words` are those after the program's name: `run FILE` or `run --steps N FILE`. The text of the run is put on `out`; the usage line,
/// the report of a refused source, or the line of a limit, of an exception or of a fault on `err`.
///
/// - 0: `main` came to its end.
/// - 1: the written rules refuse the source.
/// - 2: the words have no shape.
/// - 3: a fetch of FILE failed.
/// - 4: a take failed.
/// - 5: a put failed; nothing is put after it.
/// - 6: there was no memory.
/// - 7: an exception left `main`.
/// - 9: a limit of the written meaning was met.
///
/// The shapes, texts and statuses are this project's own.
pub fn ktflow<L: Library, I: Input, O: Output, E: Output>(
    alloc: Global,
    words: &[String],
    library: &mut L,
    input: &mut I,
    out: &mut O,
    err: &mut E,
) -> u8
    // A file is run exactly where the written rules refuse nothing in it; texts and status are then those of the written meaning, which
    // comes to no wrong use.
    ensures headline { IsHeadline (map (λ w. string_bytes w) words.now)
        (outside (L.state library.old) (I.state input.old) (O.state out.old) (E.state err.old))
        (outside (L.state library.new) (I.state input.new) (O.state out.new) (E.state err.new)) result }

    // FILE and the input have some bytes, the told ones where they are told, and the call stops against a course for them.
    ensures invocation { Invocation (map (λ w. string_bytes w) words.now)
        (outside (L.state library.old) (I.state input.old) (O.state out.old) (E.state err.old))
        (outside (L.state library.new) (I.state input.new) (O.state out.new) (E.state err.new)) result }

    // Where the bytes are told, and there was no fault and no want of memory, there is a course of the call, and both texts and the
    // status are those of it.
    ensures program { IsProgram (map (λ w. string_bytes w) words.now)
        (outside (L.state library.old) (I.state input.old) (O.state out.old) (E.state err.old))
        (outside (L.state library.new) (I.state input.new) (O.state out.new) (E.state err.new)) result }

    // Each status comes where its cause stands.
    ensures statuses { HasStatuses (map (λ w. string_bytes w) words.now)
        (outside (L.state library.old) (I.state input.old) (O.state out.old) (E.state err.old))
        (outside (L.state library.new) (I.state input.new) (O.state out.new) (E.state err.new)) result }

    // The words, a source fault, want of memory, a refusal, and then as the written meaning goes.
    ensures order { HasOrder (map (λ w. string_bytes w) words.now)
        (outside (L.state library.old) (I.state input.old) (O.state out.old) (E.state err.old))
        (outside (L.state library.new) (I.state input.new) (O.state out.new) (E.state err.new)) result }

    // Whatever came, the outputs hold fronts of their texts, and nothing is put on `err` after a failed put on `out`.
    ensures fronts { HasFronts (map (λ w. string_bytes w) words.now)
        (outside (L.state library.old) (I.state input.old) (O.state out.old) (E.state err.old))
        (outside (L.state library.new) (I.state input.new) (O.state out.new) (E.state err.new)) }

    // Objects that vouch give no excuse.
    ensures complete { IsComplete (map (λ w. string_bytes w) words.now)
        (outside (L.state library.old) (I.state input.old) (O.state out.old) (E.state err.old))
        (outside (L.state library.new) (I.state input.new) (O.state out.new) (E.state err.new)) result }
{
    let stop = perform(alloc, words, library, input, out);
    report(stop, err)
}

/// A call has at most one course, so what the clauses say of a course and of every course agree.
pub fn one_course()
    ensures { OneCourse }
{}

// All but the text on `err`, whose state is any. Nothing in the language takes bytes of the input yet.
fn perform<L: Library, I: Input, O: Output>(
    alloc: Global,
    words: &[String],
    library: &mut L,
    _input: &mut I,
    out: &mut O,
) -> Stop
    ensures { (err err' : OutputState) → Performs (map (λ w. string_bytes w) words.now)
        (outside (L.state library.old) (I.state _input.old) (O.state out.old) err)
        (outside (L.state library.new) (I.state _input.new) (O.state out.new) err') result }
{
    match read_request(words) {
        Some(request) => match fetch_source(alloc, library, request.file) {
            Ok(source) => execute(alloc, &source, request.steps, out),
            Err(FetchFault::Failed) => Stop::SourceFault,
            Err(FetchFault::NoMemory) => Stop::NoMemory,
        },
        None => Stop::Ended(Ending::Usage),
    }
}

// Puts the text on `err`, and answers the status.
fn report<E: Output>(stop: Stop, err: &mut E) -> u8
    ensures { Reports (E.state err.old) (E.state err.new) stop result }
{
    match put_line(err, stop.line()) {
        Ok(()) => stop.status(),
        Err(_) => 5,
    }
}
