// Files that are refused for a type, and their reports. The first finding by its place is told.
use super::{Case, PLAIN, answers};
use std::test::Fail;

// Arguments that do not fit, and too few or too many of them.
const ARGUMENTS: [(&[u8], &[u8]); 18] = [
    (
        b"fun f(n: Int) { }\nfun main() { f(\"a\") }\n",
        b"2:16-2:19 MISMATCH type does not fit\nrefused findings=1\n",
    ),
    (
        b"fun f(n: Int, s: String) { }\nfun main() { f(1, 2) }\n",
        b"2:19-2:20 MISMATCH type does not fit\nrefused findings=1\n",
    ),
    (
        b"fun f(n: Int) { }\nfun main() { f(println()) }\n",
        b"2:16-2:25 MISMATCH type does not fit\nrefused findings=1\n",
    ),
    (
        b"fun f(s: String) { }\nfun main() { f(1 + 2) }\n",
        b"2:16-2:21 MISMATCH type does not fit\nrefused findings=1\n",
    ),
    (
        b"fun f(b: Boolean) { }\nfun main() { f(((1))) }\n",
        b"2:18-2:19 MISMATCH type does not fit\nrefused findings=1\n",
    ),
    (
        b"fun f(n: Int) { }\nfun main() {\n    val a: Any = 1\n    f(a)\n}\n",
        b"4:7-4:8 MISMATCH type does not fit\nrefused findings=1\n",
    ),
    (
        b"fun f(n: Nothing) { }\nfun main() { f(1) }\n",
        b"2:16-2:17 MISMATCH type does not fit\nrefused findings=1\n",
    ),
    (
        b"fun f(n: Int) { }\nfun main() { f(if (true) 1 else \"a\") }\n",
        b"2:33-2:36 MISMATCH type does not fit\nrefused findings=1\n",
    ),
    (
        b"fun main() { require(1) }",
        b"1:22-1:23 MISMATCH type does not fit\nrefused findings=1\n",
    ),
    (
        b"fun main() { check(\"a\") }",
        b"1:20-1:23 MISMATCH type does not fit\nrefused findings=1\n",
    ),
    (
        b"fun f(n: Int) { }\nfun main() { f() }\n",
        b"2:14-2:15 ARGUMENT_COUNT wrong number of arguments\nrefused findings=1\n",
    ),
    (
        b"fun f(n: Int) { }\nfun main() { f(1, 2) }\n",
        b"2:14-2:15 ARGUMENT_COUNT wrong number of arguments\nrefused findings=1\n",
    ),
    (
        b"fun f(n: Int) { }\nfun main() { f(\"a\", \"b\") }\n",
        b"2:14-2:15 ARGUMENT_COUNT wrong number of arguments\nrefused findings=1\n",
    ),
    (
        b"fun f(n: Int): Int = n\nfun main() { println(f(f())) }\n",
        b"2:24-2:25 ARGUMENT_COUNT wrong number of arguments\nrefused findings=1\n",
    ),
    (
        b"fun main() { error() }",
        b"1:14-1:19 ARGUMENT_COUNT wrong number of arguments\nrefused findings=1\n",
    ),
    (
        b"fun main() { check(true, \"a\") }",
        b"1:14-1:19 ARGUMENT_COUNT wrong number of arguments\nrefused findings=1\n",
    ),
    (
        b"fun main() { println(require()) }",
        b"1:22-1:29 ARGUMENT_COUNT wrong number of arguments\nrefused findings=1\n",
    ),
    // A call one of whose arguments has no type has no finding of its own.
    (
        b"fun f() { }\nfun main() { f(1 + true) }\n",
        b"2:20-2:24 MISMATCH type does not fit\nrefused findings=1\n",
    ),
];

// Results that do not fit the written type.
const RESULTS: [(&[u8], &[u8]); 15] = [
    (
        b"fun f(): Int {\n    return \"a\"\n}\nfun main() { }\n",
        b"2:12-2:15 MISMATCH type does not fit\nrefused findings=1\n",
    ),
    (
        b"fun f() {\n    return 1\n}\nfun main() { }\n",
        b"2:12-2:13 MISMATCH type does not fit\nrefused findings=1\n",
    ),
    (
        b"fun main() { return 1 }",
        b"1:21-1:22 MISMATCH type does not fit\nrefused findings=1\n",
    ),
    (
        b"fun f(): Int {\n    return\n}\nfun main() { }\n",
        b"2:5-2:11 MISMATCH type does not fit\nrefused findings=1\n",
    ),
    (
        b"fun f(): Any {\n    return\n}\nfun main() { }\n",
        b"2:5-2:11 MISMATCH type does not fit\nrefused findings=1\n",
    ),
    (
        b"fun f(b: Boolean): Int {\n    if (b) { return }\n    return 1\n}\nfun main() { }\n",
        b"2:14-2:20 MISMATCH type does not fit\nrefused findings=1\n",
    ),
    (
        b"fun f(b: Boolean): Int {\n    if (b) return true\n    return 1\n}\nfun main() { }\n",
        b"2:19-2:23 MISMATCH type does not fit\nrefused findings=1\n",
    ),
    (
        b"fun f(): Nothing {\n    return 1\n}\nfun main() { }\n",
        b"2:12-2:13 MISMATCH type does not fit\nrefused findings=1\n",
    ),
    (
        b"fun f(): Nothing {\n    return\n}\nfun main() { }\n",
        b"2:5-2:11 MISMATCH type does not fit\nrefused findings=1\n",
    ),
    (
        b"fun f(): Int = \"a\"\nfun main() { }\n",
        b"1:16-1:19 MISMATCH type does not fit\nrefused findings=1\n",
    ),
    (
        b"fun f(): String = 1 + 2\nfun main() { }\n",
        b"1:19-1:24 MISMATCH type does not fit\nrefused findings=1\n",
    ),
    (
        b"fun f(): Unit = 1\nfun main() { }\n",
        b"1:17-1:18 MISMATCH type does not fit\nrefused findings=1\n",
    ),
    (
        b"fun g() { }\nfun f(): Boolean = g()\nfun main() { }\n",
        b"2:20-2:23 MISMATCH type does not fit\nrefused findings=1\n",
    ),
    (
        b"fun f(): Any = 1\nfun g(): Int = f()\nfun main() { }\n",
        b"2:16-2:19 MISMATCH type does not fit\nrefused findings=1\n",
    ),
    (
        b"fun f(): Int = return \"a\"\nfun main() { }\n",
        b"1:23-1:26 MISMATCH type does not fit\nrefused findings=1\n",
    ),
];

// Conditions, operands and assigned values that do not fit.
const OPERANDS: [(&[u8], &[u8]); 34] = [
    (
        b"fun main() { if (1) println(1) }",
        b"1:18-1:19 MISMATCH type does not fit\nrefused findings=1\n",
    ),
    (
        b"fun main() { if (\"true\") println(1) }",
        b"1:18-1:24 MISMATCH type does not fit\nrefused findings=1\n",
    ),
    (
        b"fun f() { }\nfun main() { if (f()) println(1) else println(2) }\n",
        b"2:18-2:21 MISMATCH type does not fit\nrefused findings=1\n",
    ),
    (
        b"fun main() { println(1 && true) }",
        b"1:22-1:23 MISMATCH type does not fit\nrefused findings=1\n",
    ),
    (
        b"fun main() { println(true || \"a\") }",
        b"1:30-1:33 MISMATCH type does not fit\nrefused findings=1\n",
    ),
    (
        b"fun main() { println(!1) }",
        b"1:23-1:24 MISMATCH type does not fit\nrefused findings=1\n",
    ),
    (
        b"fun main() { println(\"a\" < \"b\") }",
        b"1:22-1:25 MISMATCH type does not fit\nrefused findings=1\n",
    ),
    (
        b"fun main() { println(1 <= true) }",
        b"1:27-1:31 MISMATCH type does not fit\nrefused findings=1\n",
    ),
    (
        b"fun main() { println(true >= false) }",
        b"1:22-1:26 MISMATCH type does not fit\nrefused findings=1\n",
    ),
    (
        b"fun main() { println(1 + \"a\") }",
        b"1:26-1:29 MISMATCH type does not fit\nrefused findings=1\n",
    ),
    (
        b"fun main() { println(1 + 2 + \"a\") }",
        b"1:30-1:33 MISMATCH type does not fit\nrefused findings=1\n",
    ),
    (
        b"fun main() { println(true + 1) }",
        b"1:22-1:26 MISMATCH type does not fit\nrefused findings=1\n",
    ),
    (
        b"fun main() { println(true + \"a\") }",
        b"1:22-1:26 MISMATCH type does not fit\nrefused findings=1\n",
    ),
    (
        b"fun main() { println(\"a\" - \"b\") }",
        b"1:22-1:25 MISMATCH type does not fit\nrefused findings=1\n",
    ),
    (
        b"fun main() { println(\"a\" * 2) }",
        b"1:22-1:25 MISMATCH type does not fit\nrefused findings=1\n",
    ),
    (
        b"fun main() { println(7 / \"a\") }",
        b"1:26-1:29 MISMATCH type does not fit\nrefused findings=1\n",
    ),
    (
        b"fun main() { println(7 % true) }",
        b"1:26-1:30 MISMATCH type does not fit\nrefused findings=1\n",
    ),
    (
        b"fun main() { println(-true) }",
        b"1:23-1:27 MISMATCH type does not fit\nrefused findings=1\n",
    ),
    (
        b"fun f() { println(1 + true) }\nfun main() {\n    val x: Int\n    println(x)\n}\n",
        b"1:23-1:27 MISMATCH type does not fit\nrefused findings=1\n",
    ),
    // Only the written type of a local counts.
    (
        b"fun main() {\n    val x: Any = \"a\"\n    println(x + \"b\")\n}\n",
        b"3:13-3:14 MISMATCH type does not fit\nrefused findings=1\n",
    ),
    (
        b"fun main() {\n    var x: Any = 1\n    x += 1\n}\n",
        b"3:5-3:6 MISMATCH type does not fit\nrefused findings=1\n",
    ),
    (
        b"fun main() {\n    var s = \"a\"\n    s = 1\n}\n",
        b"3:9-3:10 MISMATCH type does not fit\nrefused findings=1\n",
    ),
    (
        b"fun main() {\n    var s = \"a\"\n    s -= 1\n}\n",
        b"3:5-3:6 MISMATCH type does not fit\nrefused findings=1\n",
    ),
    (
        b"fun main() {\n    var s = \"a\"\n    s--\n}\n",
        b"3:5-3:6 MISMATCH type does not fit\nrefused findings=1\n",
    ),
    (
        b"fun main() {\n    var b = true\n    b += 1\n}\n",
        b"3:5-3:6 MISMATCH type does not fit\nrefused findings=1\n",
    ),
    (
        b"fun main() {\n    var n = 1\n    n += \"a\"\n}\n",
        b"3:10-3:13 MISMATCH type does not fit\nrefused findings=1\n",
    ),
    (
        b"fun main() {\n    var n = 1\n    n /= true\n}\n",
        b"3:10-3:14 MISMATCH type does not fit\nrefused findings=1\n",
    ),
    (
        b"fun main() {\n    val n: Int = \"5\"\n    println(n + 1)\n}\n",
        b"2:18-2:21 MISMATCH type does not fit\nrefused findings=1\n",
    ),
    (
        b"fun main() {\n    val s: String = ((1))\n}\n",
        b"2:23-2:24 MISMATCH type does not fit\nrefused findings=1\n",
    ),
    (
        b"fun main() {\n    val b: Boolean = \"true\"\n}\n",
        b"2:22-2:28 MISMATCH type does not fit\nrefused findings=1\n",
    ),
    (
        b"fun main() {\n    val u: Unit = true\n}\n",
        b"2:19-2:23 MISMATCH type does not fit\nrefused findings=1\n",
    ),
    (
        b"fun main() {\n    val n: Nothing = 1\n}\n",
        b"2:22-2:23 MISMATCH type does not fit\nrefused findings=1\n",
    ),
    // Types are looked at where nothing comes, too.
    (
        b"fun main() {\n    return\n    val x: Int = \"a\"\n}\n",
        b"3:18-3:21 MISMATCH type does not fit\nrefused findings=1\n",
    ),
    (
        b"fun main() {\n    var n: Nothing = error(\"no\")\n    n += 1\n}\n",
        b"3:5-3:11 MISMATCH type does not fit\nrefused findings=1\n",
    ),
];

// Values that cannot be equal.
const EQUALITIES: [(&[u8], &[u8]); 10] = [
    (
        b"fun main() {\n    val n = 5\n    if (n == \"5\") println(\"same\")\n}\n",
        b"3:9-3:17 EQUALITY values cannot be equal\nrefused findings=1\n",
    ),
    (
        b"fun main() { println(true == 1) }",
        b"1:22-1:31 EQUALITY values cannot be equal\nrefused findings=1\n",
    ),
    (
        b"fun main() { println(\"a\" != true) }",
        b"1:22-1:33 EQUALITY values cannot be equal\nrefused findings=1\n",
    ),
    (
        b"fun main() { println((1) == (\"a\")) }",
        b"1:22-1:34 EQUALITY values cannot be equal\nrefused findings=1\n",
    ),
    (
        b"fun main() { println(1 + 2 == \"3\") }",
        b"1:22-1:34 EQUALITY values cannot be equal\nrefused findings=1\n",
    ),
    (
        b"fun main() { println(1 == 1 == 1) }",
        b"1:22-1:33 EQUALITY values cannot be equal\nrefused findings=1\n",
    ),
    (
        b"fun f(): String = \"a\"\nfun main() { val b = f() == 1 }\n",
        b"2:22-2:30 EQUALITY values cannot be equal\nrefused findings=1\n",
    ),
    (
        b"fun main() { println((if (true) 1 else 2) == \"a\") }",
        b"1:22-1:49 EQUALITY values cannot be equal\nrefused findings=1\n",
    ),
    (
        b"fun main() { println(!(1 != \"a\") || true) }",
        b"1:24-1:32 EQUALITY values cannot be equal\nrefused findings=1\n",
    ),
    // An equality one of whose operands has no type has no finding of its own.
    (
        b"fun main() { println((1 == \"a\") == 5) }",
        b"1:23-1:31 EQUALITY values cannot be equal\nrefused findings=1\n",
    ),
];

#[test]
fn arguments_fit(rt: HostRuntime) -> Result<(), Fail> {
    for (source, report) in ARGUMENTS {
        answers(&rt, rt.alloc(), Case { source, ..PLAIN }, 1, b"", report)?;
    }
    Ok(())
}

#[test]
fn results_fit(rt: HostRuntime) -> Result<(), Fail> {
    for (source, report) in RESULTS {
        answers(&rt, rt.alloc(), Case { source, ..PLAIN }, 1, b"", report)?;
    }
    Ok(())
}

#[test]
fn operands_fit(rt: HostRuntime) -> Result<(), Fail> {
    for (source, report) in OPERANDS {
        answers(&rt, rt.alloc(), Case { source, ..PLAIN }, 1, b"", report)?;
    }
    Ok(())
}

#[test]
fn values_can_be_equal(rt: HostRuntime) -> Result<(), Fail> {
    for (source, report) in EQUALITIES {
        answers(&rt, rt.alloc(), Case { source, ..PLAIN }, 1, b"", report)?;
    }
    Ok(())
}
