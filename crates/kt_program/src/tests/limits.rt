// Accepted sources at the limits on steps, calls and texts, and just past them.
use super::{Case, PLAIN, answers, large};
use std::alloc::Global;
use std::test::Fail;

const ONE: &[&str] = &["run", "--steps", "1", "a.kt"];

const TWO: &[&str] = &["run", "--steps", "2", "a.kt"];

const THREE: &[&str] = &["run", "--steps", "3", "a.kt"];

const FOUR: &[&str] = &["run", "--steps", "4", "a.kt"];

const FIVE: &[&str] = &["run", "--steps", "5", "a.kt"];

const SIX: &[&str] = &["run", "--steps", "6", "a.kt"];

// Words with a number of steps and with one less; a source for which the first are just enough; and what it prints with each.
const STEPS: [(&[&str], &[&str], &[u8], &[u8], &[u8]); 21] = [
    (TWO, ONE, b"fun main() { println(1) }", b"1\n", b""),
    (TWO, ONE, b"fun main() { println(true) }", b"true\n", b""),
    (TWO, ONE, b"fun main() { println(\"a\") }", b"a\n", b""),
    (
        FOUR,
        THREE,
        b"fun main() { println(\"a\" + \"b\") }",
        b"ab\n",
        b"",
    ),
    (
        THREE,
        TWO,
        b"fun main() { println(!true) }",
        b"false\n",
        b"",
    ),
    (
        FOUR,
        THREE,
        b"fun main() { println(1 < 2) }",
        b"true\n",
        b"",
    ),
    (
        FOUR,
        THREE,
        b"fun main() { println(1 == 2) }",
        b"false\n",
        b"",
    ),
    (
        THREE,
        TWO,
        b"fun main() { println(false && true) }",
        b"false\n",
        b"",
    ),
    (
        FOUR,
        THREE,
        b"fun main() { println(true && true) }",
        b"true\n",
        b"",
    ),
    (
        THREE,
        TWO,
        b"fun main() { println(true || true) }",
        b"true\n",
        b"",
    ),
    (
        FOUR,
        THREE,
        b"fun main() { println(false || true) }",
        b"true\n",
        b"",
    ),
    (FOUR, THREE, b"fun main() { println(7 / 2) }", b"3\n", b""),
    (
        FOUR,
        THREE,
        b"fun main() { if (true) println(1) }",
        b"1\n",
        b"",
    ),
    (TWO, ONE, b"fun main() { if (false) println(1) }", b"", b""),
    (
        FOUR,
        THREE,
        b"fun main() { if (false) println(1) else println(2) }",
        b"2\n",
        b"",
    ),
    (
        FOUR,
        THREE,
        b"fun main() { println(if (true) { 1 } else 2) }",
        b"1\n",
        b"",
    ),
    (
        THREE,
        TWO,
        b"fun main() { print(1); return; print(2) }",
        b"1",
        b"1",
    ),
    (
        FOUR,
        THREE,
        b"fun f(): Int { return 5 }\nfun main() { println(f()) }\n",
        b"5\n",
        b"",
    ),
    (
        FOUR,
        THREE,
        b"fun f(n: Int): Int = n\nfun main() { println(f(1)) }\n",
        b"1\n",
        b"",
    ),
    (
        SIX,
        FIVE,
        b"fun main() { var x = 7; x /= 2; println(x) }",
        b"3\n",
        b"",
    ),
    (
        FOUR,
        THREE,
        b"fun main() { print(1); require(true) }",
        b"1",
        b"1",
    ),
];

// As many calls are under way as may be: 16, `main` among them.
const DONE: [(&[u8], &[u8]); 3] = [
    (
        b"fun f(n: Int) { if (n > 1) f(n - 1) }\nfun main() { f(15); println(\"ok\") }\n",
        b"ok\n",
    ),
    (
        b"fun f(n: Int) { if (n > 1) f(n - 1) }\nfun main() { f(15); f(15); print(f(15)) }\n",
        b"kotlin.Unit",
    ),
    (
        b"fun f(n: Int) {\n    if (n > 1) f(n - 1) else { require(true); check(true); println(\"deep\") }\n}\nfun main() { f(15) }\n",
        b"deep\n",
    ),
];

// One more call is made, behind what is printed.
const LEFT: [(&[u8], &[u8]); 4] = [
    (
        b"fun f(n: Int) { if (n > 1) f(n - 1) }\nfun main() { f(16); println(\"ok\") }\n",
        b"",
    ),
    // The arguments of the call that is one too many are evaluated.
    (
        b"fun f(n: Int) { f(if (true) { print(n); n + 1 } else 0) }\nfun main() { f(1) }\n",
        b"123456789101112131415",
    ),
    (
        b"fun f(): Nothing = f()\nfun main() {\n    print(1)\n    f()\n    print(2)\n}\n",
        b"1",
    ),
    (
        b"fun isEven(n: Int): Boolean = if (n == 0) true else isOdd(n - 1)\nfun isOdd(n: Int): Boolean = if (n == 0) false else isEven(n - 1)\nfun main() {\n    println(isEven(14))\n    println(isEven(15))\n}\n",
        b"true\n",
    ),
];

// With the steps that a run has where no number is given.
const ENDLESS: &[u8] =
    b"fun f(n: Int) {\n    if (n > 0) { f(n - 1); f(n - 1); f(n - 1) }\n}\nfun main() { print(1); f(14); print(2) }\n";

// A `main` that makes texts of 16,777,214 bytes in all, two fewer than may be made, and then does the rest.
fn doubling(alloc: Global, rest: &[u8]) -> Result<Vec<u8>, Fail> {
    let mut source = b"fun main() { var s = \"a\"".to_vec(alloc)?;
    for _ in 0..23 {
        source.extend_from_slice(b"; s += s")?;
    }
    source.extend_from_slice(rest)?;
    source.extend_from_slice(b" }\n")?;
    Ok(source)
}

#[test]
fn each_tree_is_a_step(rt: HostRuntime) -> Result<(), Fail> {
    for (enough, wanting, source, out, less) in STEPS {
        let words = enough;
        answers(
            &rt,
            rt.alloc(),
            Case {
                words,
                source,
                ..PLAIN
            },
            0,
            out,
            b"",
        )?;
        let words = wanting;
        answers(
            &rt,
            rt.alloc(),
            Case {
                words,
                source,
                ..PLAIN
            },
            9,
            less,
            b"limit steps\n",
        )?;
    }
    Ok(())
}

#[test]
fn an_exception_takes_its_steps(rt: HostRuntime) -> Result<(), Fail> {
    let source = b"fun main() { error(\"a\") }";
    let words = TWO;
    let thrown = b"uncaught IllegalStateException: a\n";
    answers(
        &rt,
        rt.alloc(),
        Case {
            words,
            source,
            ..PLAIN
        },
        7,
        b"",
        thrown,
    )?;
    let words = ONE;
    answers(
        &rt,
        rt.alloc(),
        Case {
            words,
            source,
            ..PLAIN
        },
        9,
        b"",
        b"limit steps\n",
    )
}

#[test]
fn a_run_has_a_million_steps(rt: HostRuntime) -> Result<(), Fail> {
    let source = ENDLESS;
    answers(
        &rt,
        rt.alloc(),
        Case { source, ..PLAIN },
        9,
        b"1",
        b"limit steps\n",
    )
}

#[test]
fn sixteen_calls_are_under_way(rt: HostRuntime) -> Result<(), Fail> {
    for (source, out) in DONE {
        answers(&rt, rt.alloc(), Case { source, ..PLAIN }, 0, out, b"")?;
    }
    for (source, out) in LEFT {
        answers(
            &rt,
            rt.alloc(),
            Case { source, ..PLAIN },
            9,
            out,
            b"limit calls\n",
        )?;
    }
    Ok(())
}

// The text of a printed integer and that of a literal are not made.
#[test]
fn texts_of_16_mebibytes_are_made(rt: HostRuntime) -> Result<(), Fail> {
    let alloc = rt.alloc();
    let rest =
        b"; val t = \"a\" + \"b\"; println(t); println(\"\" + \"\"); println(7); print(\"c\")";
    large::answers(&rt, alloc, doubling(alloc, rest)?, 0, b"ab\n\n7\nc", b"")?;
    let rest = b"; val t = \"a\" + \"b\"; error(\"c\")";
    let thrown = b"uncaught IllegalStateException: c\n";
    large::answers(&rt, alloc, doubling(alloc, rest)?, 7, b"", thrown)
}

#[test]
fn no_longer_texts_are_made(rt: HostRuntime) -> Result<(), Fail> {
    let alloc = rt.alloc();
    let rest = b"; val t = \"a\" + \"b\"; print(t); print(\"\" + 0)";
    large::answers(
        &rt,
        alloc,
        doubling(alloc, rest)?,
        9,
        b"ab",
        b"limit text\n",
    )?;
    let rest = b"; print(1); s += s; print(2)";
    large::answers(&rt, alloc, doubling(alloc, rest)?, 9, b"1", b"limit text\n")?;
    let rest = b"; val t = \"a\" + \"b\"; error(5)";
    large::answers(&rt, alloc, doubling(alloc, rest)?, 9, b"", b"limit text\n")
}
