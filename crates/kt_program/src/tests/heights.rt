// Sources that are made up to the limits on heights, variables and graphs, and just past them.
use super::large::answers;
use std::alloc::Global;
use std::process::Abort;
use std::test::Fail;

const DEEP_AT_BRACE: &[u8] = b"1:2814-1:2815 TOO_DEEP nesting is too deep\nrefused findings=1\n";

const DEEP_AT_CONDITION: &[u8] =
    b"1:2814-1:2818 TOO_DEEP nesting is too deep\nrefused findings=1\n";

const TOO_MANY: &[u8] = b"1:5-1:6 TOO_MANY_LOCALS too many variables\nrefused findings=1\n";

// The piece so many times more.
fn add(source: &mut Vec<u8>, piece: &[u8], count: usize) -> Result<(), Fail> {
    for _ in 0..count {
        source.extend_from_slice(piece)?;
    }
    Ok(())
}

// A `main` of so many `if`s within one another, in braces.
fn within(alloc: Global, count: usize) -> Result<Vec<u8>, Fail> {
    let mut source = b"fun main() { ".to_vec(alloc)?;
    add(&mut source, b"if (true) { ", count)?;
    add(&mut source, b"} ", count)?;
    add(&mut source, b"}\n", 1)?;
    Ok(source)
}

// A `main` of so many `if`s, each behind the `else` of the one before.
fn chained(alloc: Global, count: usize) -> Result<Vec<u8>, Fail> {
    let mut source = b"fun main() { ".to_vec(alloc)?;
    add(&mut source, b"if (false) 1 else ", count)?;
    add(&mut source, b"2 }\n", 1)?;
    Ok(source)
}

// A `main` that prints the joined text of so many strings, and one more.
fn joined(alloc: Global, count: usize) -> Result<Vec<u8>, Fail> {
    let mut source = b"fun main() { println(".to_vec(alloc)?;
    add(&mut source, b"\"\" + ", count)?;
    add(&mut source, b"\"\") }\n", 1)?;
    Ok(source)
}

// A `main` that prints `true` behind so many `!`.
fn negated(alloc: Global, count: usize) -> Result<Vec<u8>, Fail> {
    let mut source = b"fun main() { println(".to_vec(alloc)?;
    add(&mut source, b"! ", count)?;
    add(&mut source, b"true) }\n", 1)?;
    Ok(source)
}

// A function whose body is as high as can be and calls it from within, and a `main` that calls it.
fn high_calls(alloc: Global, main: &[u8]) -> Result<Vec<u8>, Fail> {
    let mut source = b"fun f(n: Int): Int = ".to_vec(alloc)?;
    add(&mut source, b"(", 196)?;
    add(&mut source, b"if (n > 1) f(n - 1) else 0", 1)?;
    add(&mut source, b")", 196)?;
    add(&mut source, main, 1)?;
    Ok(source)
}

// So many locals.
fn add_locals(alloc: Global, source: &mut Vec<u8>, count: usize) -> Result<(), Fail> {
    for i in 0..count {
        let local = format!(in alloc; "    val x{i} = {i}\n")?;
        source.extend_from_slice(local.as_bytes())?;
    }
    Ok(())
}

// A function with so many parameters and so many locals.
fn with_variables(alloc: Global, parameters: usize, locals: usize) -> Result<Vec<u8>, Fail> {
    let mut source = b"fun f(".to_vec(alloc)?;
    for i in 0..parameters {
        let parameter = format!(in alloc; "p{i}: Int, ")?;
        source.extend_from_slice(parameter.as_bytes())?;
    }
    add(&mut source, b") {\n", 1)?;
    add_locals(alloc, &mut source, locals)?;
    add(&mut source, b"}\nfun main() { }\n", 1)?;
    Ok(source)
}

// A function with so many locals in each branch.
fn with_branches(alloc: Global, first: usize, second: usize) -> Result<Vec<u8>, Fail> {
    let mut source = b"fun f() {\n    if (true) {\n".to_vec(alloc)?;
    add_locals(alloc, &mut source, first)?;
    add(&mut source, b"    } else {\n", 1)?;
    add_locals(alloc, &mut source, second)?;
    add(&mut source, b"    }\n}\nfun main() { }\n", 1)?;
    Ok(source)
}

// A function of so many `if`s, which have six nodes each beside the three of the body.
fn with_conditions(alloc: Global, count: usize) -> Result<Vec<u8>, Fail> {
    let mut source = b"fun main() { }\nfun f() { ".to_vec(alloc)?;
    add(&mut source, b"if (true) { }; ", count)?;
    add(&mut source, b"}\n", 1)?;
    Ok(source)
}

fn accepts(rt: &impl Abort, alloc: Global, source: Vec<u8>, out: &[u8]) -> Result<(), Fail> {
    answers(rt, alloc, source, 0, out, b"")
}

fn refuses(rt: &impl Abort, alloc: Global, source: Vec<u8>, report: &[u8]) -> Result<(), Fail> {
    answers(rt, alloc, source, 1, b"", report)
}

#[test]
fn branches_have_a_greatest_height(rt: HostRuntime) -> Result<(), Fail> {
    let alloc = rt.alloc();
    accepts(&rt, alloc, within(alloc, 199)?, b"")?;
    refuses(&rt, alloc, within(alloc, 200)?, DEEP_AT_BRACE)?;
    accepts(&rt, alloc, chained(alloc, 199)?, b"")?;
    let report = b"1:3616-1:3617 TOO_DEEP nesting is too deep\nrefused findings=1\n";
    refuses(&rt, alloc, chained(alloc, 200)?, report)
}

// The condition of the 234th `if` would begin the 701st part that is open.
#[test]
fn only_so_many_parts_are_open(rt: HostRuntime) -> Result<(), Fail> {
    let alloc = rt.alloc();
    refuses(&rt, alloc, within(alloc, 234)?, DEEP_AT_CONDITION)?;
    refuses(&rt, alloc, within(alloc, 1_000)?, DEEP_AT_CONDITION)
}

#[test]
fn operators_have_a_greatest_height(rt: HostRuntime) -> Result<(), Fail> {
    let alloc = rt.alloc();
    accepts(&rt, alloc, joined(alloc, 198)?, b"\n")?;
    let report = b"1:1021-1:1022 TOO_DEEP nesting is too deep\nrefused findings=1\n";
    refuses(&rt, alloc, joined(alloc, 199)?, report)?;
    let report = b"1:1024-1:1025 TOO_DEEP nesting is too deep\nrefused findings=1\n";
    refuses(&rt, alloc, joined(alloc, 200)?, report)?;
    accepts(&rt, alloc, negated(alloc, 198)?, b"true\n")?;
    let report = b"1:426-1:427 TOO_DEEP nesting is too deep\nrefused findings=1\n";
    refuses(&rt, alloc, negated(alloc, 199)?, report)
}

// As many trees are entered within one another as can be.
#[test]
fn the_highest_calls_are_made(rt: HostRuntime) -> Result<(), Fail> {
    let alloc = rt.alloc();
    let main = b"\nfun main() { println(f(15)) }\n";
    accepts(&rt, alloc, high_calls(alloc, main)?, b"0\n")?;
    let main = b"\nfun main() { println(f(16)) }\n";
    answers(
        &rt,
        alloc,
        high_calls(alloc, main)?,
        9,
        b"",
        b"limit calls\n",
    )
}

#[test]
fn parameters_are_counted_with_locals(rt: HostRuntime) -> Result<(), Fail> {
    let alloc = rt.alloc();
    accepts(&rt, alloc, with_variables(alloc, 100, 150)?, b"")?;
    refuses(&rt, alloc, with_variables(alloc, 100, 151)?, TOO_MANY)?;
    refuses(&rt, alloc, with_variables(alloc, 251, 0)?, TOO_MANY)
}

#[test]
fn the_locals_of_all_blocks_are_counted(rt: HostRuntime) -> Result<(), Fail> {
    let alloc = rt.alloc();
    accepts(&rt, alloc, with_branches(alloc, 125, 125)?, b"")?;
    refuses(&rt, alloc, with_branches(alloc, 125, 126)?, TOO_MANY)
}

#[test]
fn conditions_have_nodes_of_their_own(rt: HostRuntime) -> Result<(), Fail> {
    let alloc = rt.alloc();
    let report = b"2:5-2:6 FLOW_TOO_LARGE body is too large\nrefused findings=1\n";
    refuses(&rt, alloc, with_conditions(alloc, 10_923)?, report)
}
