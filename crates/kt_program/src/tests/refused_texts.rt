// Sources that are no file, and their reports.
use super::{Case, PLAIN, answers};
use std::test::Fail;

// Bytes that are no UTF-8, and where no token begins. The first failure from the left counts, and bytes come before tokens.
const TOKENS: [(&[u8], &[u8]); 19] = [
    (
        b"fun main() { println(\xFF) }",
        b"1:22-1:22 NOT_UTF8 source is not UTF-8\nrefused findings=1\n",
    ),
    (
        b"\xC3",
        b"1:1-1:1 NOT_UTF8 source is not UTF-8\nrefused findings=1\n",
    ),
    (
        b"fun main() { }\xE2\x82",
        b"1:15-1:15 NOT_UTF8 source is not UTF-8\nrefused findings=1\n",
    ),
    (
        b"// \xC3\xB6\xFF",
        b"1:5-1:5 NOT_UTF8 source is not UTF-8\nrefused findings=1\n",
    ),
    (
        b"fun main() { # \xFF }",
        b"1:16-1:16 NOT_UTF8 source is not UTF-8\nrefused findings=1\n",
    ),
    (
        b"fun main() { println(08) }",
        b"1:22-1:23 BAD_TOKEN no token begins here\nrefused findings=1\n",
    ),
    (
        b"fun main() { println(2147483648) }",
        b"1:22-1:23 BAD_TOKEN no token begins here\nrefused findings=1\n",
    ),
    (
        b"fun main() { println(0x8000_0000) }",
        b"1:22-1:23 BAD_TOKEN no token begins here\nrefused findings=1\n",
    ),
    (
        b"fun main() { println(1_) }",
        b"1:22-1:23 BAD_TOKEN no token begins here\nrefused findings=1\n",
    ),
    (
        b"fun main() { println(0x) }",
        b"1:22-1:23 BAD_TOKEN no token begins here\nrefused findings=1\n",
    ),
    (
        b"fun main() { println(0b2) }",
        b"1:22-1:23 BAD_TOKEN no token begins here\nrefused findings=1\n",
    ),
    (
        b"fun main() { println(2x) }",
        b"1:22-1:23 BAD_TOKEN no token begins here\nrefused findings=1\n",
    ),
    (
        b"fun main() { println(1.5) }",
        b"1:22-1:23 BAD_TOKEN no token begins here\nrefused findings=1\n",
    ),
    (
        b"fun main() { println(#) }",
        b"1:22-1:23 BAD_TOKEN no token begins here\nrefused findings=1\n",
    ),
    (
        b"fun main() { a & b }",
        b"1:16-1:17 BAD_TOKEN no token begins here\nrefused findings=1\n",
    ),
    (
        b"fun main() { /* a /* b */ }",
        b"1:14-1:15 BAD_TOKEN no token begins here\nrefused findings=1\n",
    ),
    (
        b"fun main() { println(\"a) }",
        b"1:22-1:23 BAD_TOKEN no token begins here\nrefused findings=1\n",
    ),
    (
        b"fun main() { println(\"\\q\") }",
        b"1:23-1:24 BAD_TOKEN no token begins here\nrefused findings=1\n",
    ),
    (
        b"fun main() { if 08 }",
        b"1:17-1:18 BAD_TOKEN no token begins here\nrefused findings=1\n",
    ),
];

// Tokens that no open row of the grammar fits.
const SYNTAX: [(&[u8], &[u8]); 21] = [
    (
        b"fun main() { println(1",
        b"1:23-1:23 SYNTAX unexpected token\nrefused findings=1\n",
    ),
    (
        b"fun main() { println(1)",
        b"1:24-1:24 SYNTAX unexpected token\nrefused findings=1\n",
    ),
    (
        b"fun main() { println(1) } }",
        b"1:27-1:28 SYNTAX unexpected token\nrefused findings=1\n",
    ),
    (
        b"main() { }",
        b"1:1-1:5 SYNTAX unexpected token\nrefused findings=1\n",
    ),
    (
        b"fun () { }",
        b"1:5-1:6 SYNTAX unexpected token\nrefused findings=1\n",
    ),
    (
        b"fun main { }",
        b"1:10-1:11 SYNTAX unexpected token\nrefused findings=1\n",
    ),
    (
        b"class A",
        b"1:1-1:6 SYNTAX unexpected token\nrefused findings=1\n",
    ),
    (
        b"private fun main() { }",
        b"1:1-1:8 SYNTAX unexpected token\nrefused findings=1\n",
    ),
    (
        b"import kotlin.io.*\nfun main() { }",
        b"1:15-1:17 SYNTAX unexpected token\nrefused findings=1\n",
    ),
    (
        b"fun main() { while (1) { } }",
        b"1:14-1:19 SYNTAX unexpected token\nrefused findings=1\n",
    ),
    (
        b"fun main() { val x: Int? = 1 }",
        b"1:24-1:25 SYNTAX unexpected token\nrefused findings=1\n",
    ),
    (
        b"fun main() { val = 1 }",
        b"1:18-1:19 SYNTAX unexpected token\nrefused findings=1\n",
    ),
    (
        b"fun main() { 1 + }",
        b"1:18-1:19 SYNTAX unexpected token\nrefused findings=1\n",
    ),
    (
        b"fun main() { x = y = 1 }",
        b"1:20-1:21 SYNTAX unexpected token\nrefused findings=1\n",
    ),
    (
        b"fun main() { println { 1 } }",
        b"1:22-1:23 SYNTAX unexpected token\nrefused findings=1\n",
    ),
    (
        b"fun main() { println(1;) }",
        b"1:23-1:24 SYNTAX unexpected token\nrefused findings=1\n",
    ),
    (
        b"fun main() { println(--5) }",
        b"1:22-1:24 SYNTAX unexpected token\nrefused findings=1\n",
    ),
    (
        b"fun main() { println(1) println(2) }",
        b"1:25-1:32 SYNTAX unexpected token\nrefused findings=1\n",
    ),
    (
        b"fun main() { val x = 1 val y = 2 }",
        b"1:24-1:27 SYNTAX unexpected token\nrefused findings=1\n",
    ),
    (
        b"fun main() { val a = 1 /*\n*/ val b = 2 }",
        b"2:4-2:7 SYNTAX unexpected token\nrefused findings=1\n",
    ),
    (
        b"fun main() {\n    val x = 1\n    x\n    ++\n}\n",
        b"4:5-4:7 SYNTAX unexpected token\nrefused findings=1\n",
    ),
];

#[test]
fn bytes_and_tokens_are_refused(rt: HostRuntime) -> Result<(), Fail> {
    for (source, report) in TOKENS {
        answers(&rt, rt.alloc(), Case { source, ..PLAIN }, 1, b"", report)?;
    }
    Ok(())
}

#[test]
fn syntax_is_refused(rt: HostRuntime) -> Result<(), Fail> {
    for (source, report) in SYNTAX {
        answers(&rt, rt.alloc(), Case { source, ..PLAIN }, 1, b"", report)?;
    }
    Ok(())
}
