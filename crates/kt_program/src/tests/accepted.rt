// Accepted sources, and what they print.
use super::{Case, PLAIN, answers};
use std::test::Fail;

// Integers, in their bases and at the ends of their range, and the operators on them.
const NUMBERS: [(&[u8], &[u8]); 17] = [
    (b"fun main() { println(0) }", b"0\n"),
    (b"fun main() { println(1_000_000) }", b"1000000\n"),
    (b"fun main() { println(0x7FFF_FFFF) }", b"2147483647\n"),
    (b"fun main() { println(0XfF) }", b"255\n"),
    (b"fun main() { println(0b1010_1010) }", b"170\n"),
    (b"fun main() { println(2147483647 + 1) }", b"-2147483648\n"),
    (b"fun main() { println(-2147483647 - 2) }", b"2147483647\n"),
    (
        b"fun main() { println(-(-2147483647 - 1)) }",
        b"-2147483648\n",
    ),
    (b"fun main() { println(46341 * 46341) }", b"-2147479015\n"),
    (b"fun main() { println(65536 * 65536) }", b"0\n"),
    (b"fun main() { println(1 + 2 * 3) }", b"7\n"),
    (b"fun main() { println((1 + 2) * 3) }", b"9\n"),
    (b"fun main() { println(10 - 3 - 2) }", b"5\n"),
    (b"fun main() { println(10 - (3 - 2)) }", b"9\n"),
    (b"fun main() { println(-2 * 3 + +4) }", b"-2\n"),
    (b"fun main() { println(-+-7) }", b"7\n"),
    (b"fun main() { 1 + 2; (println(1)) }", b"1\n"),
];

// Locals, what is assigned to them, and what is printed.
const LOCALS: [(&[u8], &[u8]); 17] = [
    (b"fun main() { }", b""),
    (b"fun main() { println() }", b"\n"),
    (b"fun main() { print(1); print(2); println() }", b"12\n"),
    (b"fun main() { println(println(1)) }", b"1\nkotlin.Unit\n"),
    (
        b"fun main() {\n    val u = print(3)\n    println(u)\n}\n",
        b"3kotlin.Unit\n",
    ),
    (
        b"fun main() {\n    val u: Unit = println()\n    print(u)\n}\n",
        b"\nkotlin.Unit",
    ),
    (
        b"fun main() {\n    val x: Int\n    x = 2\n    println(x)\n}\n",
        b"2\n",
    ),
    (
        b"fun main() {\n    var x: Int\n    x = 1\n    x = x + x\n    println(x)\n}\n",
        b"2\n",
    ),
    (
        b"fun main() {\n    var x = 1\n    x += 2\n    x -= 5\n    x *= 7\n    println(x)\n}\n",
        b"-14\n",
    ),
    (
        b"fun main() {\n    var x = 1\n    x++\n    x++\n    x--\n    println(x)\n}\n",
        b"2\n",
    ),
    (
        b"fun main() {\n    var x = 3\n    x *= 2 + 3\n    println(x)\n}\n",
        b"15\n",
    ),
    (
        b"fun main() {\n    var x = 2147483647\n    x++\n    println(x)\n}\n",
        b"-2147483648\n",
    ),
    (
        b"fun main() {\n    val x: Any = 5\n    println(x)\n}\n",
        b"5\n",
    ),
    (
        b"fun main() {\n    val a = 1\n    val b = a + a\n    val c = b * b - a\n    println(c)\n}\n",
        b"3\n",
    ),
    (
        b"fun main() {\n    val println = 5\n    println(println)\n}\n",
        b"5\n",
    ),
    (
        b"fun main() {\n    val main = 6\n    println(main)\n}\n",
        b"6\n",
    ),
    (b"fun main() { val unused: Int }", b""),
];

// Comments, line ends, semicolons, and words that have a meaning elsewhere.
const TEXTS: [(&[u8], &[u8]); 19] = [
    (b"fun main() { println(/* a /* b */ c */ 0x1F) }", b"31\n"),
    (
        b"// first\nfun main() { // second\n    println(4) /* third */ // fourth\n}\n",
        b"4\n",
    ),
    (b"fun main() { println(1) }// at the end", b"1\n"),
    (b"fun main() { println(1 /*\n*/ + 2) }", b"3\n"),
    // The `+ 2` is a statement of its own.
    (
        b"fun main() {\n    val a = 1\n    val d = a\n        + 2\n    println(d)\n}\n",
        b"1\n",
    ),
    (
        b"fun main() {\n    val x = (1\n        + 2)\n    println(x)\n}\n",
        b"3\n",
    ),
    (
        b"fun main() {\n    val x = 1 +\n        2\n    println(x)\n}\n",
        b"3\n",
    ),
    (
        b"fun main() {\n    println(\n        1\n        - 2\n    )\n}\n",
        b"-1\n",
    ),
    (
        b"fun main() {\n    val\n    x\n    :\n    Int\n    =\n    3\n    println(x)\n}\n",
        b"3\n",
    ),
    (b"fun\nmain\n(\n)\n{\nprintln(\n1\n)\n}\n", b"1\n"),
    (
        b"fun main() {\r    println(1)\r\n    println(2)\n}\r",
        b"1\n2\n",
    ),
    (b"fun main()\t{\x0C println(1) }", b"1\n"),
    (b"\xEF\xBB\xBFfun main() { println(1) }", b"1\n"),
    (b";;fun main() { ;; println(1);; };", b"1\n"),
    (b"fun main() { println(1,) }", b"1\n"),
    (
        b"fun main() {\n    val gr\xC3\xB6\xC3\x9Fe_1 = 3\n    println(gr\xC3\xB6\xC3\x9Fe_1)\n}\n",
        b"3\n",
    ),
    (
        b"fun main() {\n    val open = 1\n    val get = 2\n    val init = 3\n    println(open + get * init)\n}\n",
        b"7\n",
    ),
    (
        b"import kotlin.contracts.*\nimport kotlin.contracts.contract;\n\nfun main() { println(1) }\n",
        b"1\n",
    ),
    (
        b"@OptIn(ExperimentalContracts::class)\nfun main() { println(1) }\n",
        b"1\n",
    ),
];

#[test]
fn numbers_are_printed(rt: HostRuntime) -> Result<(), Fail> {
    for (source, out) in NUMBERS {
        answers(&rt, rt.alloc(), Case { source, ..PLAIN }, 0, out, b"")?;
    }
    Ok(())
}

#[test]
fn locals_are_assigned(rt: HostRuntime) -> Result<(), Fail> {
    for (source, out) in LOCALS {
        answers(&rt, rt.alloc(), Case { source, ..PLAIN }, 0, out, b"")?;
    }
    Ok(())
}

#[test]
fn texts_are_read(rt: HostRuntime) -> Result<(), Fail> {
    for (source, out) in TEXTS {
        answers(&rt, rt.alloc(), Case { source, ..PLAIN }, 0, out, b"")?;
    }
    Ok(())
}
