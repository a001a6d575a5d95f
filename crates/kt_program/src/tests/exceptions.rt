// Accepted sources that an exception ends, with what they print before and the line of the exception.
use super::{Case, PLAIN, answers};
use std::test::Fail;

// Divisions by zero, by a literal, by a local and in a compound assignment.
const DIVISIONS: [(&[u8], &[u8], &[u8]); 6] = [
    (
        b"fun main() { println(1 / 0) }",
        b"",
        b"uncaught ArithmeticException: / by zero\n",
    ),
    (
        b"fun main() {\n    val zero = 0\n    print(5)\n    println(5 % zero)\n}\n",
        b"5",
        b"uncaught ArithmeticException: / by zero\n",
    ),
    (
        b"fun main() {\n    var x = 5\n    print(x)\n    x /= 0\n    print(x)\n}\n",
        b"5",
        b"uncaught ArithmeticException: / by zero\n",
    ),
    (
        b"fun main() {\n    var x = 5\n    x %= 1 - 1\n    print(x)\n}\n",
        b"",
        b"uncaught ArithmeticException: / by zero\n",
    ),
    (
        b"fun p(n: Int): Int {\n    print(n)\n    return n\n}\nfun main() { println(p(1) / p(0) + p(2)) }\n",
        b"10",
        b"uncaught ArithmeticException: / by zero\n",
    ),
    (
        b"fun half(n: Int): Int {\n    print(n)\n    return n / (n - n)\n}\nfun twice(n: Int): Int {\n    val h = half(n)\n    print(\"after\")\n    return h + h\n}\nfun main() {\n    print(\"a\")\n    println(twice(4))\n    print(\"b\")\n}\n",
        b"a4",
        b"uncaught ArithmeticException: / by zero\n",
    ),
];

// What `error`, `require` and `check` throw.
const ERRORS: [(&[u8], &[u8], &[u8]); 24] = [
    (
        b"fun stop(): Nothing { error(\"no\") }\nfun main() {\n    stop()\n    println(1)\n}\n",
        b"",
        b"uncaught IllegalStateException: no\n",
    ),
    // What stands behind such a call is dead, and needs no value.
    (
        b"fun stop(): Nothing = error(\"no\")\nfun main() {\n    val x: Int\n    print(1)\n    stop()\n    println(x)\n}\n",
        b"1",
        b"uncaught IllegalStateException: no\n",
    ),
    (
        b"fun main() { error(\"no\") }",
        b"",
        b"uncaught IllegalStateException: no\n",
    ),
    (
        b"fun stop(m: Any): Nothing { return error(m) }\nfun main() { stop(7) }\n",
        b"",
        b"uncaught IllegalStateException: 7\n",
    ),
    (
        b"fun main() { error(5) }",
        b"",
        b"uncaught IllegalStateException: 5\n",
    ),
    (
        b"fun main() { error(-2147483647 - 1) }",
        b"",
        b"uncaught IllegalStateException: -2147483648\n",
    ),
    (
        b"fun main() { error(1 < 2) }",
        b"",
        b"uncaught IllegalStateException: true\n",
    ),
    (
        b"fun main() { error(print(\"x\")) }",
        b"x",
        b"uncaught IllegalStateException: kotlin.Unit\n",
    ),
    (
        b"fun main() { error(\"a\" + 1) }",
        b"",
        b"uncaught IllegalStateException: a1\n",
    ),
    // A message of no length is a message.
    (
        b"fun main() { error(\"\") }",
        b"",
        b"uncaught IllegalStateException: \n",
    ),
    (
        b"fun main() { error(\"a\\n\xC3\xA4\") }",
        b"",
        b"uncaught IllegalStateException: a\n\xC3\xA4\n",
    ),
    (
        b"fun main() {\n    val m: Any = \"m\"\n    error(m)\n}\n",
        b"",
        b"uncaught IllegalStateException: m\n",
    ),
    (
        b"fun main() { error(error(\"inner\")) }",
        b"",
        b"uncaught IllegalStateException: inner\n",
    ),
    (
        b"fun p(n: Int): Int {\n    print(n)\n    return n\n}\nfun main() { println(p(1) + error(\"x\")) }\n",
        b"1",
        b"uncaught IllegalStateException: x\n",
    ),
    (
        b"fun main() { if (error(\"c\")) println(1) else println(2) }",
        b"",
        b"uncaught IllegalStateException: c\n",
    ),
    (
        b"fun main() {\n    val x: Int = error(\"a\")\n    println(x)\n}\n",
        b"",
        b"uncaught IllegalStateException: a\n",
    ),
    (
        b"fun half(n: Int): Int = if (n % 2 == 0) n / 2 else odd(n)\nfun odd(n: Int): Nothing = error(\"odd \" + n)\nfun main() {\n    println(half(8))\n    println(half(3))\n}\n",
        b"4\n",
        b"uncaught IllegalStateException: odd 3\n",
    ),
    (
        b"fun f(n: Int): Int {\n    val x: Int\n    if (n > 0) { x = n } else if (n == 0) return -1 else error(\"negative\")\n    return x\n}\nfun main() {\n    println(f(3))\n    println(f(0))\n    println(f(-1))\n}\n",
        b"3\n-1\n",
        b"uncaught IllegalStateException: negative\n",
    ),
    // A block that is left before its end fits any type, though it ends by a declaration.
    (
        b"fun stop(): Nothing = error(\"no\")\nfun main() {\n    val x: Int = if (true) { stop(); val y = 2 } else 3\n    println(x)\n}\n",
        b"",
        b"uncaught IllegalStateException: no\n",
    ),
    (
        b"fun main() {\n    print(1)\n    require(false)\n    print(2)\n}\n",
        b"1",
        b"uncaught IllegalArgumentException: Failed requirement.\n",
    ),
    (
        b"fun main() {\n    print(1)\n    check(false)\n    print(2)\n}\n",
        b"1",
        b"uncaught IllegalStateException: Check failed.\n",
    ),
    (
        b"fun positive(n: Int): Int {\n    require(n > 0)\n    check(n < 10)\n    return n\n}\nfun main() {\n    print(positive(3))\n    print(positive(30))\n}\n",
        b"3",
        b"uncaught IllegalStateException: Check failed.\n",
    ),
    (
        b"fun p(n: Int): Int {\n    print(n)\n    return n\n}\nfun main() { require(p(1) > 1 && p(2) > 0) }\n",
        b"1",
        b"uncaught IllegalArgumentException: Failed requirement.\n",
    ),
    // The example of the page on the language.
    (
        b"fun half(n: Int): Int {\n    require(n >= 0)\n    if (n % 2 == 0) return n / 2\n    return stop(\"odd: \" + n)\n}\n\nfun stop(why: String): Nothing = error(why)\n\nfun sign(n: Int): String = if (n > 0) \"plus\" else if (n < 0) \"minus\" else \"zero\"\n\nfun main() {\n    val answer: Int\n    if (half(10) < 3 || sign(-4) == \"plus\") answer = 1 else answer = 2\n    println(\"answer \" + answer)        // answer 2\n    println(half(7))                   // uncaught IllegalStateException: odd: 7\n}\n",
        b"answer 2\n",
        b"uncaught IllegalStateException: odd: 7\n",
    ),
];

// The same where as many calls are under way as may be.
const DEEP: [(&[u8], &[u8], &[u8]); 2] = [
    (
        b"fun f(n: Int): Int = if (n == 1) 1 / 0 else f(n - 1)\nfun main() { println(f(15)) }\n",
        b"",
        b"uncaught ArithmeticException: / by zero\n",
    ),
    (
        b"fun f(n: Int): Int = if (n == 1) error(n) else f(n - 1)\nfun main() { println(f(15)) }\n",
        b"",
        b"uncaught IllegalStateException: 1\n",
    ),
];

#[test]
fn a_division_by_zero_ends_a_run(rt: HostRuntime) -> Result<(), Fail> {
    for (source, out, err) in DIVISIONS {
        answers(&rt, rt.alloc(), Case { source, ..PLAIN }, 7, out, err)?;
    }
    Ok(())
}

#[test]
fn errors_end_a_run(rt: HostRuntime) -> Result<(), Fail> {
    for (source, out, err) in ERRORS {
        answers(&rt, rt.alloc(), Case { source, ..PLAIN }, 7, out, err)?;
    }
    Ok(())
}

#[test]
fn deep_exceptions_end_a_run(rt: HostRuntime) -> Result<(), Fail> {
    for (source, out, err) in DEEP {
        answers(&rt, rt.alloc(), Case { source, ..PLAIN }, 7, out, err)?;
    }
    Ok(())
}
