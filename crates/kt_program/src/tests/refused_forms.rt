// Sources with forms that are not open, and their reports.
use super::{Case, PLAIN, answers};
use std::test::Fail;

// Expressions, statements and declarations that are not open.
const FORMS: [(&[u8], &[u8]); 33] = [
    (
        b"fun main() { println(null) }",
        b"1:22-1:26 SYNTAX unexpected token\nrefused findings=1\n",
    ),
    (
        b"fun f(x: Int?) { }\nfun main() { }\n",
        b"1:13-1:14 SYNTAX unexpected token\nrefused findings=1\n",
    ),
    (
        b"fun f(): Int? = 1\nfun main() { }\n",
        b"1:13-1:14 SYNTAX unexpected token\nrefused findings=1\n",
    ),
    (
        b"fun main() { println(1 is Int) }",
        b"1:24-1:26 SYNTAX unexpected token\nrefused findings=1\n",
    ),
    (
        b"fun main() { println(1 !is Int) }",
        b"1:24-1:27 SYNTAX unexpected token\nrefused findings=1\n",
    ),
    (
        b"fun main() { println(1 as Any) }",
        b"1:24-1:26 SYNTAX unexpected token\nrefused findings=1\n",
    ),
    (
        b"fun main() { println(1 as? Any) }",
        b"1:24-1:27 SYNTAX unexpected token\nrefused findings=1\n",
    ),
    (
        b"fun main() { println(1 ?: 2) }",
        b"1:24-1:26 SYNTAX unexpected token\nrefused findings=1\n",
    ),
    (
        b"fun main() { println(\"a\".length) }",
        b"1:25-1:26 SYNTAX unexpected token\nrefused findings=1\n",
    ),
    (
        b"fun main() { println(\"a\"?.length) }",
        b"1:25-1:27 SYNTAX unexpected token\nrefused findings=1\n",
    ),
    (
        b"fun main() { println(1!!) }",
        b"1:23-1:25 SYNTAX unexpected token\nrefused findings=1\n",
    ),
    (
        b"fun main() { println(!!true) }",
        b"1:22-1:24 SYNTAX unexpected token\nrefused findings=1\n",
    ),
    (
        b"fun main() { println(1..2) }",
        b"1:23-1:25 SYNTAX unexpected token\nrefused findings=1\n",
    ),
    (
        b"fun main() { while (true) { } }",
        b"1:14-1:19 SYNTAX unexpected token\nrefused findings=1\n",
    ),
    (
        b"fun main() { do { } while (true) }",
        b"1:14-1:16 SYNTAX unexpected token\nrefused findings=1\n",
    ),
    (
        b"fun main() { for (i in 1..2) { } }",
        b"1:14-1:17 SYNTAX unexpected token\nrefused findings=1\n",
    ),
    (
        b"fun main() { if (true) while (true) { } }",
        b"1:24-1:29 SYNTAX unexpected token\nrefused findings=1\n",
    ),
    (
        b"fun main() { when (1) { else -> 2 } }",
        b"1:14-1:18 SYNTAX unexpected token\nrefused findings=1\n",
    ),
    (
        b"fun main() { throw 1 }",
        b"1:14-1:19 SYNTAX unexpected token\nrefused findings=1\n",
    ),
    (
        b"fun main() { val x = try { 1 } finally { } }",
        b"1:22-1:25 SYNTAX unexpected token\nrefused findings=1\n",
    ),
    (
        b"fun main() { if (true) break }",
        b"1:24-1:29 SYNTAX unexpected token\nrefused findings=1\n",
    ),
    (
        b"fun main() { if (true) { } else continue }",
        b"1:33-1:41 SYNTAX unexpected token\nrefused findings=1\n",
    ),
    (
        b"fun main() { return@main }",
        b"1:14-1:25 SYNTAX unexpected token\nrefused findings=1\n",
    ),
    (
        b"fun main() { println(this) }",
        b"1:22-1:26 SYNTAX unexpected token\nrefused findings=1\n",
    ),
    (
        b"fun main() { fun f() { } }",
        b"1:14-1:17 SYNTAX unexpected token\nrefused findings=1\n",
    ),
    (
        b"fun main() { require(true) { \"m\" } }",
        b"1:28-1:29 SYNTAX unexpected token\nrefused findings=1\n",
    ),
    (
        b"fun f(b: Boolean) {\n    contract { returns() implies b }\n}\nfun main() { }\n",
        b"2:14-2:15 SYNTAX unexpected token\nrefused findings=1\n",
    ),
    (
        b"class A\nfun main() { }\n",
        b"1:1-1:6 SYNTAX unexpected token\nrefused findings=1\n",
    ),
    (
        b"fun main() { }\nclass A\n",
        b"2:1-2:6 SYNTAX unexpected token\nrefused findings=1\n",
    ),
    (
        b"fun main() { }\ninterface A\n",
        b"2:1-2:10 SYNTAX unexpected token\nrefused findings=1\n",
    ),
    (
        b"val x = 1\nfun main() { }\n",
        b"1:1-1:4 SYNTAX unexpected token\nrefused findings=1\n",
    ),
    (
        b"fun main() { }\nprivate fun f() { }\n",
        b"2:1-2:8 SYNTAX unexpected token\nrefused findings=1\n",
    ),
    (
        b"inline fun f() { }\nfun main() { }\n",
        b"1:1-1:7 SYNTAX unexpected token\nrefused findings=1\n",
    ),
];

// What does not fit within an open form.
const PIECES: [(&[u8], &[u8]); 29] = [
    (
        b"fun f(x: Int = 1) { }\nfun main() { }\n",
        b"1:14-1:15 SYNTAX unexpected token\nrefused findings=1\n",
    ),
    (
        b"fun f(val x: Int) { }\nfun main() { }\n",
        b"1:7-1:10 SYNTAX unexpected token\nrefused findings=1\n",
    ),
    (
        b"fun f(vararg x: Int) { }\nfun main() { }\n",
        b"1:14-1:15 SYNTAX unexpected token\nrefused findings=1\n",
    ),
    (
        b"fun f(x) { }\nfun main() { }\n",
        b"1:8-1:9 SYNTAX unexpected token\nrefused findings=1\n",
    ),
    (
        b"fun f(b: (Int) -> Int) { }\nfun main() { }\n",
        b"1:10-1:11 SYNTAX unexpected token\nrefused findings=1\n",
    ),
    (
        b"fun f() -> Int { }\nfun main() { }\n",
        b"1:9-1:11 SYNTAX unexpected token\nrefused findings=1\n",
    ),
    (
        b"fun <T> f() { }\nfun main() { }\n",
        b"1:5-1:6 SYNTAX unexpected token\nrefused findings=1\n",
    ),
    (
        b"fun f(x: List<Int>) { }\nfun main() { }\n",
        b"1:14-1:15 SYNTAX unexpected token\nrefused findings=1\n",
    ),
    (
        b"fun Int.f() { }\nfun main() { }\n",
        b"1:8-1:9 SYNTAX unexpected token\nrefused findings=1\n",
    ),
    (
        b"fun f(): Int = { return 1 }\nfun main() { }\n",
        b"1:16-1:17 SYNTAX unexpected token\nrefused findings=1\n",
    ),
    (
        b"fun f(n: Int) { }\nfun main() { f(n = 1) }\n",
        b"2:18-2:19 SYNTAX unexpected token\nrefused findings=1\n",
    ),
    (
        b"fun main() { if true { } }",
        b"1:17-1:21 SYNTAX unexpected token\nrefused findings=1\n",
    ),
    (
        b"fun main() { if }",
        b"1:17-1:18 SYNTAX unexpected token\nrefused findings=1\n",
    ),
    (
        b"fun main() { if (true) else println(1) }",
        b"1:24-1:28 SYNTAX unexpected token\nrefused findings=1\n",
    ),
    (
        b"fun main() { if (true); }",
        b"1:23-1:24 SYNTAX unexpected token\nrefused findings=1\n",
    ),
    (
        b"fun main() { if (true) println(1); else println(2) }",
        b"1:36-1:40 SYNTAX unexpected token\nrefused findings=1\n",
    ),
    (
        b"fun main() { if (true) val x = 1 }",
        b"1:24-1:27 SYNTAX unexpected token\nrefused findings=1\n",
    ),
    (
        b"fun main() { if (true) }",
        b"1:24-1:25 SYNTAX unexpected token\nrefused findings=1\n",
    ),
    (
        b"fun main() { if (true) { println(1) }",
        b"1:38-1:38 SYNTAX unexpected token\nrefused findings=1\n",
    ),
    (
        b"fun main() {\n    var x = 1\n    if (x = 2) println(x)\n}\n",
        b"3:11-3:12 SYNTAX unexpected token\nrefused findings=1\n",
    ),
    (
        b"fun main() { println(1 < 2 < 3) }",
        b"1:28-1:29 SYNTAX unexpected token\nrefused findings=1\n",
    ),
    (
        b"fun main() {\n    val a = true\n    == true\n}\n",
        b"3:5-3:7 SYNTAX unexpected token\nrefused findings=1\n",
    ),
    (
        b"fun main() {\n    val a = 6\n    / 2\n}\n",
        b"3:5-3:6 SYNTAX unexpected token\nrefused findings=1\n",
    ),
    (
        b"fun main() {\n    var a = 6\n    a\n    %= 4\n}\n",
        b"4:5-4:7 SYNTAX unexpected token\nrefused findings=1\n",
    ),
    (
        b"fun main() { return 1 2 }",
        b"1:23-1:24 SYNTAX unexpected token\nrefused findings=1\n",
    ),
    (
        b"fun main() { if (true) { 1 } 2 }",
        b"1:30-1:31 SYNTAX unexpected token\nrefused findings=1\n",
    ),
    (
        b"fun main() { println(true()) }",
        b"1:26-1:27 SYNTAX unexpected token\nrefused findings=1\n",
    ),
    (
        b"fun main() { println(1 &&) }",
        b"1:26-1:27 SYNTAX unexpected token\nrefused findings=1\n",
    ),
    (
        b"fun main() {\n    if (1 < 2 println(\"x\")\n}\n",
        b"2:15-2:22 SYNTAX unexpected token\nrefused findings=1\n",
    ),
];

// Parts of strings, and strings that are none.
const STRINGS: [(&[u8], &[u8]); 14] = [
    (
        b"fun main() { println(\"$x\") }",
        b"1:23-1:25 SYNTAX unexpected token\nrefused findings=1\n",
    ),
    (
        b"fun main() { println(\"a $this\") }",
        b"1:25-1:30 SYNTAX unexpected token\nrefused findings=1\n",
    ),
    (
        b"fun main() { println(\"a${1}\") }",
        b"1:24-1:26 SYNTAX unexpected token\nrefused findings=1\n",
    ),
    (
        b"fun main() { println(\"\"\"a\"\"\") }",
        b"1:24-1:25 SYNTAX unexpected token\nrefused findings=1\n",
    ),
    (
        b"fun main() { println(\"a\" \"b\") }",
        b"1:26-1:27 SYNTAX unexpected token\nrefused findings=1\n",
    ),
    (
        b"fun main() { println(\"\xC3\xA4\" \"\xC3\xB6\") }",
        b"1:26-1:27 SYNTAX unexpected token\nrefused findings=1\n",
    ),
    (
        b"fun main() { println(\"$if\") }",
        b"1:23-1:24 BAD_TOKEN no token begins here\nrefused findings=1\n",
    ),
    (
        b"fun main() { println(\"\\u12\") }",
        b"1:23-1:24 BAD_TOKEN no token begins here\nrefused findings=1\n",
    ),
    (
        b"fun main() { println(\"a\\uD800\") }",
        b"1:24-1:25 BAD_TOKEN no token begins here\nrefused findings=1\n",
    ),
    (
        b"fun main() { println(\"\\a\") }",
        b"1:23-1:24 BAD_TOKEN no token begins here\nrefused findings=1\n",
    ),
    (
        b"fun main() { println('a') }",
        b"1:22-1:23 BAD_TOKEN no token begins here\nrefused findings=1\n",
    ),
    (
        b"fun main() {\n    println(\"a)\n}\n",
        b"2:13-2:14 BAD_TOKEN no token begins here\nrefused findings=1\n",
    ),
    (
        b"fun main() { println(true | false) }",
        b"1:27-1:28 BAD_TOKEN no token begins here\nrefused findings=1\n",
    ),
    (
        b"fun main() { println(1 ^ 2) }",
        b"1:24-1:25 BAD_TOKEN no token begins here\nrefused findings=1\n",
    ),
];

#[test]
fn other_forms_are_refused(rt: HostRuntime) -> Result<(), Fail> {
    for (source, report) in FORMS {
        answers(&rt, rt.alloc(), Case { source, ..PLAIN }, 1, b"", report)?;
    }
    Ok(())
}

#[test]
fn parts_of_forms_are_refused(rt: HostRuntime) -> Result<(), Fail> {
    for (source, report) in PIECES {
        answers(&rt, rt.alloc(), Case { source, ..PLAIN }, 1, b"", report)?;
    }
    Ok(())
}

#[test]
fn parts_of_strings_are_refused(rt: HostRuntime) -> Result<(), Fail> {
    for (source, report) in STRINGS {
        answers(&rt, rt.alloc(), Case { source, ..PLAIN }, 1, b"", report)?;
    }
    Ok(())
}
