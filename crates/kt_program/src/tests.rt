mod accepted;
mod branches;
mod exceptions;
mod functions;
mod heights;
mod large;
mod limits;
mod refused_branches;
mod refused_files;
mod refused_forms;
mod refused_functions;
mod refused_paths;
mod refused_texts;
mod refused_types;
mod values;

use kt_outside::{MemoryInput, MemoryLibrary, MemoryOutput};
use ktflow::ktflow;
use std::alloc::Global;
use std::process::Abort;
use std::test::Fail;

// No call of an object fails.
const NEVER: u64 = 1_000_000;

// An accepted source, and what it prints.
const ACCEPTED: &[u8] = b"fun main() {\n    val x: Int\n    x = 2\n    println(x)\n}\n";

const PRINTED: &[u8] = b"2\n";

// A refused source, and its report.
const REFUSED: &[u8] = b"fun main() {\n    val x: Int\n    x = 2\n    x = 2\n    println(x)\n}\n";

const REPORT: &[u8] = b"4:5-4:6 VAL_TWICE val may be assigned twice\nrefused findings=1\n";

// A source whose `main` calls itself, and what its 16 calls print.
const CALLS_ITSELF: &[u8] = b"fun main() {\n    print(1)\n    main()\n}\n";

const CALLED: &[u8] = b"1111111111111111";

// A source that throws, and what stands behind the call needs no value.
const THROWS: &[u8] =
    b"fun main() {\n    val x: Int\n    print(1)\n    error(2)\n    print(x)\n}\n";

const USAGE: &[u8] = b"usage: ktflow check FILE or ktflow run [--steps N] FILE\n";

// One call over objects in memory that move one byte at a time; each fails at the call with this number, from 0.
#[derive(Clone, Copy)]
struct Case {
    words: &'static [&'static str],
    source: &'static [u8],
    fetch: u64,
    take: u64,
    out: u64,
    err: u64,
}

const PLAIN: Case = Case {
    words: &["run", "a.kt"],
    source: ACCEPTED,
    fetch: NEVER,
    take: NEVER,
    out: NEVER,
    err: NEVER,
};

fn answers(
    rt: &impl Abort,
    alloc: Global,
    case: Case,
    status: u8,
    out: &[u8],
    err: &[u8],
) -> Result<(), Fail> {
    let mut words = Vec::new(alloc);
    for word in case.words {
        words.push(String::from_str(alloc, word)?)?;
    }
    let mut files = Vec::new(alloc);
    files.push((String::from_str(alloc, "a.kt")?, case.source.to_vec(alloc)?))?;
    let mut library = MemoryLibrary::new(files, 1, failing(alloc, case.fetch)?);
    let mut input = MemoryInput::new(b"a line\n".to_vec(alloc)?, 1, failing(alloc, case.take)?);
    let Ok(mut to) = MemoryOutput::new(alloc, 100, 1, failing(alloc, case.out)?) else {
        return Err(Fail::new("no memory"));
    };
    let Ok(mut on) = MemoryOutput::new(alloc, 100, 1, failing(alloc, case.err)?) else {
        return Err(Fail::new("no memory"));
    };
    let answer = ktflow(alloc, &words, &mut library, &mut input, &mut to, &mut on);
    assert_eq!(rt; on.written(), err);
    assert_eq!(rt; to.written(), out);
    assert_eq!(rt; answer, status);
    Ok(())
}

fn failing(alloc: Global, call: u64) -> Result<Vec<u64>, Fail> {
    let mut calls = Vec::new(alloc);
    if call < NEVER {
        calls.push(call)?;
    }
    Ok(calls)
}

// A text on `err`, at each of whose bytes the put may fail.
fn reports(
    rt: &impl Abort,
    alloc: Global,
    case: Case,
    status: u8,
    text: &'static [u8],
) -> Result<(), Fail> {
    answers(rt, alloc, case, status, b"", text)?;
    for at in 0..text.len() {
        answers(
            rt,
            alloc,
            Case {
                err: at as u64,
                ..case
            },
            5,
            b"",
            &text[..at],
        )?;
    }
    Ok(())
}

#[test]
fn runs_without_faults(rt: HostRuntime) -> Result<(), Fail> {
    answers(&rt, rt.alloc(), PLAIN, 0, PRINTED, b"")?;
    let words = &["run", "--steps", "1000000000", "a.kt"];
    answers(&rt, rt.alloc(), Case { words, ..PLAIN }, 0, PRINTED, b"")
}

#[test]
fn an_exception_ends_a_run(rt: HostRuntime) -> Result<(), Fail> {
    let source = THROWS;
    let said = b"uncaught IllegalStateException: 2\n";
    answers(&rt, rt.alloc(), Case { source, ..PLAIN }, 7, b"1", said)
}

#[test]
fn each_put_on_err_fails(rt: HostRuntime) -> Result<(), Fail> {
    let source = REFUSED;
    reports(&rt, rt.alloc(), Case { source, ..PLAIN }, 1, REPORT)?;
    let words = &["run", "b.kt"];
    reports(
        &rt,
        rt.alloc(),
        Case { words, ..PLAIN },
        3,
        b"cannot read source\n",
    )?;
    let words = &["run", "--steps", "1000000001", "a.kt"];
    reports(&rt, rt.alloc(), Case { words, ..PLAIN }, 2, USAGE)
}

#[test]
fn each_put_on_out_fails(rt: HostRuntime) -> Result<(), Fail> {
    for at in 0..PRINTED.len() {
        answers(
            &rt,
            rt.alloc(),
            Case {
                out: at as u64,
                ..PLAIN
            },
            5,
            &PRINTED[..at],
            b"",
        )?;
    }
    let out = PRINTED.len() as u64;
    answers(&rt, rt.alloc(), Case { out, ..PLAIN }, 0, PRINTED, b"")?;
    let case = Case {
        source: REFUSED,
        out: 0,
        ..PLAIN
    };
    answers(&rt, rt.alloc(), case, 1, b"", REPORT)
}

#[test]
fn each_fetch_fails(rt: HostRuntime) -> Result<(), Fail> {
    // One fetch for each byte, and one that finds the end.
    let fetches = ACCEPTED.len() as u64 + 1;
    for fetch in 0..fetches {
        reports(
            &rt,
            rt.alloc(),
            Case { fetch, ..PLAIN },
            3,
            b"cannot read source\n",
        )?;
    }
    let fetch = fetches;
    answers(&rt, rt.alloc(), Case { fetch, ..PLAIN }, 0, PRINTED, b"")
}

#[test]
fn no_take_is_made(rt: HostRuntime) -> Result<(), Fail> {
    answers(&rt, rt.alloc(), Case { take: 0, ..PLAIN }, 0, PRINTED, b"")
}

// Words that have no shape.
const NO_SHAPES: [&[&str]; 11] = [
    &["run", "--steps", "0", "a.kt"],
    &["run", "--steps", "+5", "a.kt"],
    &["run", "--steps", " 5", "a.kt"],
    &["run", "--steps", "00000000005", "a.kt"],
    &["run", "--steps", "9999999999", "a.kt"],
    &["run", "--steps", "", "a.kt"],
    &["run", "--step", "5", "a.kt"],
    &["run", "a.kt", "b.kt"],
    &["check", "a.kt"],
    &["run"],
    &[],
];

#[test]
fn other_words_have_no_shape(rt: HostRuntime) -> Result<(), Fail> {
    for words in NO_SHAPES {
        answers(&rt, rt.alloc(), Case { words, ..PLAIN }, 2, b"", USAGE)?;
    }
    Ok(())
}

// Words with a number of steps, a source for which they are just enough, and what it prints. The entering of each tree is a step.
const ENOUGH: [(&[&str], &[u8], &[u8]); 8] = [
    (&["run", "--steps", "5", "a.kt"], ACCEPTED, PRINTED),
    (&["run", "--steps", "1", "a.kt"], b"fun main() { }", b""),
    (
        &["run", "--steps", "2", "a.kt"],
        b"fun main() { println(1) }",
        b"1\n",
    ),
    (
        &["run", "--steps", "3", "a.kt"],
        b"fun main() { println((1)) }",
        b"1\n",
    ),
    (
        &["run", "--steps", "5", "a.kt"],
        b"fun main() { println(1 + -2) }",
        b"-1\n",
    ),
    (
        &["run", "--steps", "4", "a.kt"],
        b"fun main() { println(1); println(2) }",
        b"1\n2\n",
    ),
    (
        &["run", "--steps", "5", "a.kt"],
        b"fun main() { var x = 1; x++; println(x) }",
        b"2\n",
    ),
    (
        &["run", "--steps", "6", "a.kt"],
        b"fun main() { var x = 1; x += 1; println(x) }",
        b"2\n",
    ),
];

// The same with one step less.
const WANTING: [(&[&str], &[u8], &[u8]); 8] = [
    (&["run", "--steps", "4", "a.kt"], ACCEPTED, b""),
    (
        &["run", "--steps", "1", "a.kt"],
        b"fun main() { println(1) }",
        b"",
    ),
    (
        &["run", "--steps", "2", "a.kt"],
        b"fun main() { println((1)) }",
        b"",
    ),
    (
        &["run", "--steps", "4", "a.kt"],
        b"fun main() { println(1 + -2) }",
        b"",
    ),
    (
        &["run", "--steps", "3", "a.kt"],
        b"fun main() { println(1); println(2) }",
        b"1\n",
    ),
    (
        &["run", "--steps", "4", "a.kt"],
        b"fun main() { var x = 1; x++; println(x) }",
        b"",
    ),
    (
        &["run", "--steps", "5", "a.kt"],
        b"fun main() { var x = 1; x += 1; println(x) }",
        b"",
    ),
    (&["run", "--steps", "47", "a.kt"], CALLS_ITSELF, CALLED),
];

#[test]
fn steps_bound_a_run(rt: HostRuntime) -> Result<(), Fail> {
    for (words, source, out) in ENOUGH {
        let case = Case {
            words,
            source,
            ..PLAIN
        };
        answers(&rt, rt.alloc(), case, 0, out, b"")?;
    }
    for (words, source, out) in WANTING {
        let case = Case {
            words,
            source,
            ..PLAIN
        };
        answers(&rt, rt.alloc(), case, 9, out, b"limit steps\n")?;
    }
    Ok(())
}

// 16 calls may be under way, `main` among them; the next one is a step, and then one call too many.
#[test]
fn calls_bound_a_run(rt: HostRuntime) -> Result<(), Fail> {
    let words = &["run", "--steps", "48", "a.kt"];
    let source = CALLS_ITSELF;
    let case = Case {
        words,
        source,
        ..PLAIN
    };
    answers(&rt, rt.alloc(), case, 9, CALLED, b"limit calls\n")?;
    let case = Case { source, ..PLAIN };
    answers(&rt, rt.alloc(), case, 9, CALLED, b"limit calls\n")?;
    let source = b"fun main() { main() }";
    let case = Case { source, ..PLAIN };
    answers(&rt, rt.alloc(), case, 9, b"", b"limit calls\n")
}
