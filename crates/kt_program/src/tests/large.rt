// Sources at the limits on length, depth and locals, and just past them and the limit on graphs.
use kt_outside::{MemoryInput, MemoryLibrary, MemoryOutput};
use ktflow::ktflow;
use std::alloc::Global;
use std::process::Abort;
use std::test::Fail;

pub(super) fn answers(
    rt: &impl Abort,
    alloc: Global,
    source: Vec<u8>,
    status: u8,
    out: &[u8],
    err: &[u8],
) -> Result<(), Fail> {
    let mut words = Vec::new(alloc);
    words.push(String::from_str(alloc, "run")?)?;
    words.push(String::from_str(alloc, "a.kt")?)?;
    let mut files = Vec::new(alloc);
    files.push((String::from_str(alloc, "a.kt")?, source))?;
    let mut library = MemoryLibrary::new(files, 65_536, Vec::new(alloc));
    let mut input = MemoryInput::new(Vec::new(alloc), 1, Vec::new(alloc));
    let Ok(mut to) = MemoryOutput::new(alloc, 100, 100, Vec::new(alloc)) else {
        return Err(Fail::new("no memory"));
    };
    let Ok(mut on) = MemoryOutput::new(alloc, 100, 100, Vec::new(alloc)) else {
        return Err(Fail::new("no memory"));
    };
    let answer = ktflow(alloc, &words, &mut library, &mut input, &mut to, &mut on);
    assert_eq!(rt; on.written(), err);
    assert_eq!(rt; to.written(), out);
    assert_eq!(rt; answer, status);
    Ok(())
}

// A `main` without statements, filled up with spaces to so many bytes.
fn filled(alloc: Global, len: usize) -> Result<Vec<u8>, Fail> {
    let mut source = b"fun main() { }".to_vec(alloc)?;
    source.resize(len, b' ')?;
    Ok(source)
}

// A `main` that prints 1 out of so many pairs of parentheses.
fn nested(alloc: Global, pairs: usize) -> Result<Vec<u8>, Fail> {
    let mut source = b"fun main() { println(".to_vec(alloc)?;
    for _ in 0..pairs {
        source.push(b'(')?;
    }
    source.push(b'1')?;
    for _ in 0..pairs {
        source.push(b')')?;
    }
    source.extend_from_slice(b") }\n")?;
    Ok(source)
}

// A `main` with so many locals.
fn with_locals(alloc: Global, count: usize) -> Result<Vec<u8>, Fail> {
    let mut source = b"fun main() {\n".to_vec(alloc)?;
    for i in 0..count {
        let local = format!(in alloc; "    val x{i} = {i}\n")?;
        source.extend_from_slice(local.as_bytes())?;
    }
    source.extend_from_slice(b"}\n")?;
    Ok(source)
}

// A `main` with so many statements of one tree each, which have two nodes each beside the three of the body.
fn with_statements(alloc: Global, count: usize) -> Result<Vec<u8>, Fail> {
    let mut source = b"fun main() {".to_vec(alloc)?;
    for _ in 0..count {
        source.extend_from_slice(b"1;")?;
    }
    source.extend_from_slice(b"}\n")?;
    Ok(source)
}

#[test]
fn a_source_has_a_greatest_length(rt: HostRuntime) -> Result<(), Fail> {
    let alloc = rt.alloc();
    answers(&rt, alloc, filled(alloc, 1_048_576)?, 0, b"", b"")?;
    answers(
        &rt,
        alloc,
        filled(alloc, 1_048_577)?,
        1,
        b"",
        b"1:1-1:1 SOURCE_TOO_LONG source is too long\nrefused findings=1\n",
    )
}

#[test]
fn trees_have_a_greatest_height(rt: HostRuntime) -> Result<(), Fail> {
    let alloc = rt.alloc();
    answers(&rt, alloc, nested(alloc, 198)?, 0, b"1\n", b"")?;
    answers(
        &rt,
        alloc,
        nested(alloc, 199)?,
        1,
        b"",
        b"1:423-1:424 TOO_DEEP nesting is too deep\nrefused findings=1\n",
    )
}

#[test]
fn a_body_has_a_greatest_number_of_locals(rt: HostRuntime) -> Result<(), Fail> {
    let alloc = rt.alloc();
    answers(&rt, alloc, with_locals(alloc, 250)?, 0, b"", b"")?;
    answers(
        &rt,
        alloc,
        with_locals(alloc, 251)?,
        1,
        b"",
        b"1:5-1:9 TOO_MANY_LOCALS too many variables\nrefused findings=1\n",
    )
}

#[test]
fn a_graph_may_have_many_nodes(rt: HostRuntime) -> Result<(), Fail> {
    let alloc = rt.alloc();
    answers(&rt, alloc, with_statements(alloc, 8_000)?, 0, b"", b"")
}

#[test]
fn a_graph_has_a_greatest_number_of_nodes(rt: HostRuntime) -> Result<(), Fail> {
    let alloc = rt.alloc();
    answers(
        &rt,
        alloc,
        with_statements(alloc, 32_767)?,
        1,
        b"",
        b"1:5-1:9 FLOW_TOO_LARGE body is too large\nrefused findings=1\n",
    )
}
