// Files with functions that are refused for their declarations or names, and their reports. The first phase with a finding is told.
use super::{Case, PLAIN, answers};
use std::test::Fail;

// Names that are declared twice, unknown types, and files without a `main`.
const DECLARATIONS: [(&[u8], &[u8]); 21] = [
    (
        b"fun f() { }\nfun f() { }\nfun main() { }\n",
        b"2:5-2:6 DUPLICATE name is declared already\nrefused findings=1\n",
    ),
    (
        b"fun f(a: Int): Int = a\nfun f(b: Int): Int = b + 1\nfun main() { println(f(1)) }\n",
        b"2:5-2:6 DUPLICATE name is declared already\nrefused findings=1\n",
    ),
    (
        b"fun main() { }\nfun main() { }\n",
        b"2:5-2:9 DUPLICATE name is declared already\nrefused findings=1\n",
    ),
    (
        b"fun main(n: Int) { }\nfun main() { }\n",
        b"2:5-2:9 DUPLICATE name is declared already\nrefused findings=1\n",
    ),
    (
        b"fun f(a: Int, a: String) { }\nfun main() { }\n",
        b"1:15-1:16 DUPLICATE name is declared already\nrefused findings=1\n",
    ),
    (
        b"fun f(a: Int, b: Int, b: Int, a: Int) { }\nfun main() { }\n",
        b"1:23-1:24 DUPLICATE name is declared already\nrefused findings=1\n",
    ),
    (
        b"fun f(a: Int, a: Foo) { }\nfun main() { }\n",
        b"1:15-1:16 DUPLICATE name is declared already\nrefused findings=1\n",
    ),
    (
        b"fun f(x: Foo) { }\nfun main() { }\n",
        b"1:10-1:13 UNKNOWN_TYPE unknown type\nrefused findings=1\n",
    ),
    (
        b"fun f(): Long = 1\nfun main() { }\n",
        b"1:10-1:14 UNKNOWN_TYPE unknown type\nrefused findings=1\n",
    ),
    (
        b"fun f(x: g) { }\nfun g() { }\nfun main() { }\n",
        b"1:10-1:11 UNKNOWN_TYPE unknown type\nrefused findings=1\n",
    ),
    // A function hides the built-in class of its name.
    (
        b"fun Int(): Any = 5\nfun f(x: Int) { }\nfun main() { }\n",
        b"2:10-2:13 UNKNOWN_TYPE unknown type\nrefused findings=1\n",
    ),
    (
        b"fun main() {\n    if (true) {\n        val x: Foo = 1\n    }\n}\n",
        b"3:16-3:19 UNKNOWN_TYPE unknown type\nrefused findings=1\n",
    ),
    (
        b"fun main() {\n    if (true) { } else {\n        val x: Foo\n    }\n}\n",
        b"3:16-3:19 UNKNOWN_TYPE unknown type\nrefused findings=1\n",
    ),
    (
        b"fun f() { println(y) }\nfun g(a: Int): Int {\n    val x: Foo = a\n    return a\n}\nfun main() { }\n",
        b"3:12-3:15 UNKNOWN_TYPE unknown type\nrefused findings=1\n",
    ),
    (
        b"fun main(n: Int) { }\n",
        b"1:1-1:1 NO_MAIN no function main without parameters\nrefused findings=1\n",
    ),
    (
        b"fun main(): Int = 1\n",
        b"1:1-1:1 NO_MAIN no function main without parameters\nrefused findings=1\n",
    ),
    (
        b"fun main() = println(1)\n",
        b"1:1-1:1 NO_MAIN no function main without parameters\nrefused findings=1\n",
    ),
    (
        b"fun main(): Any { return 1 }\n",
        b"1:1-1:1 NO_MAIN no function main without parameters\nrefused findings=1\n",
    ),
    (
        b"fun main(): Nothing { error(\"no\") }\n",
        b"1:1-1:1 NO_MAIN no function main without parameters\nrefused findings=1\n",
    ),
    (
        b"fun f() { }\nfun f() { }\n",
        b"1:1-1:1 NO_MAIN no function main without parameters\nrefused findings=1\n",
    ),
    (
        b"fun main(): Foo { }\n",
        b"1:1-1:1 NO_MAIN no function main without parameters\nrefused findings=1\n",
    ),
];

// Bodies and types that are missing.
const PARTS: [(&[u8], &[u8]); 7] = [
    (
        b"fun f()\nfun main() { }\n",
        b"1:5-1:6 BODY body does not fit\nrefused findings=1\n",
    ),
    (
        b"fun f(n: Int): Int\nfun main() { }\n",
        b"1:5-1:6 BODY body does not fit\nrefused findings=1\n",
    ),
    (
        b"fun main(): Unit\n",
        b"1:5-1:9 BODY body does not fit\nrefused findings=1\n",
    ),
    (
        b"fun f() = 1\nfun main() { }\n",
        b"1:5-1:6 NO_TYPE type must be written\nrefused findings=1\n",
    ),
    (
        b"fun main() { println(y) }\nfun f(n: Int) = n\n",
        b"2:5-2:6 NO_TYPE type must be written\nrefused findings=1\n",
    ),
    (
        b"fun main() {\n    if (true) {\n        val x\n    }\n}\n",
        b"3:13-3:14 NO_TYPE type must be written\nrefused findings=1\n",
    ),
    (
        b"fun f(): Int {\n    var x\n    x = 1\n    return x\n}\nfun main() { }\n",
        b"2:9-2:10 NO_TYPE type must be written\nrefused findings=1\n",
    ),
];

// Names that stand for nothing where they are, or for something else.
const NAMES: [(&[u8], &[u8]); 25] = [
    (
        b"fun f(): Int = x\nfun main() { }\n",
        b"1:16-1:17 UNKNOWN_NAME unknown name\nrefused findings=1\n",
    ),
    (
        b"fun f(x: Int) { }\nfun g() { println(x) }\nfun main() { }\n",
        b"2:19-2:20 UNKNOWN_NAME unknown name\nrefused findings=1\n",
    ),
    (
        b"fun main() {\n    if (true) {\n        val x = 1\n    }\n    println(x)\n}\n",
        b"5:13-5:14 UNKNOWN_NAME unknown name\nrefused findings=1\n",
    ),
    (
        b"fun main() {\n    if (true) {\n        val x = 1\n    } else {\n        println(x)\n    }\n}\n",
        b"5:17-5:18 UNKNOWN_NAME unknown name\nrefused findings=1\n",
    ),
    (
        b"fun main() {\n    if (true) println(x)\n    val x = 1\n}\n",
        b"2:23-2:24 UNKNOWN_NAME unknown name\nrefused findings=1\n",
    ),
    (
        b"fun f() { g(1) }\nfun main() { }\n",
        b"1:11-1:12 UNKNOWN_NAME unknown name\nrefused findings=1\n",
    ),
    (
        b"fun main() {\n    if (true) { val g = 1 }\n    g()\n}\n",
        b"3:5-3:6 UNKNOWN_NAME unknown name\nrefused findings=1\n",
    ),
    (
        b"fun main() { printline(\"x\") }",
        b"1:14-1:23 UNKNOWN_NAME unknown name\nrefused findings=1\n",
    ),
    (
        b"fun main() { println(Nothing) }",
        b"1:22-1:29 UNKNOWN_NAME unknown name\nrefused findings=1\n",
    ),
    // What is built in and not open has no name; no class can be called.
    (
        b"fun main() { println(readLine()) }",
        b"1:22-1:30 UNKNOWN_NAME unknown name\nrefused findings=1\n",
    ),
    (
        b"fun main() { repeat(2) }",
        b"1:14-1:20 UNKNOWN_NAME unknown name\nrefused findings=1\n",
    ),
    (
        b"fun main() { println(Any()) }",
        b"1:22-1:25 UNKNOWN_NAME unknown name\nrefused findings=1\n",
    ),
    (
        b"fun main() { println(Exception(\"a\")) }",
        b"1:22-1:31 UNKNOWN_NAME unknown name\nrefused findings=1\n",
    ),
    (
        b"fun f() { println(x) }\nfun main() { val a = 1; val a = 2 }\n",
        b"1:19-1:20 UNKNOWN_NAME unknown name\nrefused findings=1\n",
    ),
    (
        b"fun f() { }\nfun main() { val x = f }\n",
        b"2:22-2:23 NOT_A_VALUE name is not a value\nrefused findings=1\n",
    ),
    (
        b"fun f() { }\nfun main() { f = 1 }\n",
        b"2:14-2:15 NOT_A_VALUE name is not a value\nrefused findings=1\n",
    ),
    (
        b"fun main() { println(error) }",
        b"1:22-1:27 NOT_A_VALUE name is not a value\nrefused findings=1\n",
    ),
    (
        b"fun main() { if (require) println(1) }",
        b"1:18-1:25 NOT_A_VALUE name is not a value\nrefused findings=1\n",
    ),
    (
        b"fun main() { val s = String }",
        b"1:22-1:28 NOT_A_VALUE name is not a value\nrefused findings=1\n",
    ),
    (
        b"fun f(n: Int): Int = n(1)\nfun main() { }\n",
        b"1:22-1:23 NOT_A_FUNCTION name is not a function\nrefused findings=1\n",
    ),
    (
        b"fun main() {\n    val b = true\n    if (b()) println(1)\n}\n",
        b"3:9-3:10 NOT_A_FUNCTION name is not a function\nrefused findings=1\n",
    ),
    (
        b"fun main() {\n    val f = 1\n    if (true) { f(2) }\n}\n",
        b"3:17-3:18 NOT_A_FUNCTION name is not a function\nrefused findings=1\n",
    ),
    (
        b"fun main() {\n    if (true) {\n        val a = 1\n        val a = 2\n    }\n}\n",
        b"4:13-4:14 DUPLICATE_LOCAL name is declared already\nrefused findings=1\n",
    ),
    (
        b"fun main() {\n    if (true) { } else {\n        val a: Int\n        var a = \"b\"\n    }\n}\n",
        b"4:13-4:14 DUPLICATE_LOCAL name is declared already\nrefused findings=1\n",
    ),
    (
        b"fun f(a: Int) {\n    val a = 1\n    val a = 2\n}\nfun main() { }\n",
        b"3:9-3:10 DUPLICATE_LOCAL name is declared already\nrefused findings=1\n",
    ),
];

#[test]
fn functions_are_declared(rt: HostRuntime) -> Result<(), Fail> {
    for (source, report) in DECLARATIONS {
        answers(&rt, rt.alloc(), Case { source, ..PLAIN }, 1, b"", report)?;
    }
    Ok(())
}

#[test]
fn functions_have_bodies_and_types(rt: HostRuntime) -> Result<(), Fail> {
    for (source, report) in PARTS {
        answers(&rt, rt.alloc(), Case { source, ..PLAIN }, 1, b"", report)?;
    }
    Ok(())
}

#[test]
fn names_have_scopes(rt: HostRuntime) -> Result<(), Fail> {
    for (source, report) in NAMES {
        answers(&rt, rt.alloc(), Case { source, ..PLAIN }, 1, b"", report)?;
    }
    Ok(())
}
