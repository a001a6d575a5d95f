// Accepted sources with truth values, texts and quotients, and what they print.
use super::{Case, PLAIN, answers};
use std::test::Fail;

// Comparisons, equality, and what decides before its right side is needed.
const TRUTHS: [(&[u8], &[u8]); 13] = [
    (
        b"fun main() {\n    print(1 < 2); print(2 < 2); print(2 > 1); print(1 > 1)\n    print(2 <= 2); print(3 <= 2); print(2 >= 2); print(1 >= 2)\n}\n",
        b"truefalsetruefalsetruefalsetruefalse",
    ),
    (
        b"fun main() { println(-2147483647 - 1 < 2147483647) }",
        b"true\n",
    ),
    (
        b"fun main() {\n    println(1 == 1)\n    println(1 != 1)\n    println(true == false)\n    println(true != false)\n    println(\"a\" == \"a\")\n    println(\"a\" != \"b\")\n    println(\"\" == \"\")\n}\n",
        b"true\nfalse\nfalse\ntrue\ntrue\ntrue\ntrue\n",
    ),
    // Texts that the run makes are equal by what they are.
    (
        b"fun join(a: String, b: String): String = a + b\nfun main() {\n    val s = join(\"a\", \"bc\")\n    println(s == join(\"ab\", \"c\"))\n    println(s == \"abc\")\n    println(s != \"ab\" + 0)\n    println(\"1\" + 2 == \"12\")\n}\n",
        b"true\ntrue\ntrue\ntrue\n",
    ),
    (
        b"fun same(a: Any, b: Any): Boolean = a == b\nfun main() {\n    print(same(1, 1))\n    print(same(1, true))\n    print(same(\"1\", 1))\n    print(same(\"a\", \"a\" + \"\"))\n    print(same(true, true))\n    print(same(print(\"\"), print(\"\")))\n}\n",
        b"truefalsefalsetruetruetrue",
    ),
    (
        b"fun main() { println(println() == println()) }",
        b"\n\ntrue\n",
    ),
    (b"fun main() { println(println() == 1) }", b"\nfalse\n"),
    (
        b"fun main() {\n    val x: Any = 5\n    println(x == 5)\n    println(x == \"5\")\n    println(true != x)\n}\n",
        b"true\nfalse\ntrue\n",
    ),
    (
        b"fun main() {\n    print(true && true); print(true && false); print(false || true); print(false || false)\n    print(!true); print(!false); print(! !true); print(!(1 < 2) || 2 > 1 && true)\n}\n",
        b"truefalsetruefalsefalsetruetruetrue",
    ),
    (
        b"fun main() {\n    println(1 == 1 == true)\n    println(1 < 2 == 2 < 3)\n    println(!true == false)\n    println(true || true && false)\n    println((true || true) && false)\n}\n",
        b"true\ntrue\ntrue\ntrue\nfalse\n",
    ),
    (
        b"fun yes(n: Int): Boolean {\n    print(n)\n    return true\n}\nfun no(n: Int): Boolean = !yes(n)\nfun main() {\n    println(no(1) && yes(2))\n    println(yes(3) || no(4))\n    println(yes(5) && no(6) || yes(7))\n    println(yes(8) || no(9) && no(0))\n    println(!no(1) && !yes(2))\n}\n",
        b"1false\n3true\n567true\n8true\n12false\n",
    ),
    (
        b"fun main() {\n    val a = true\n        && false\n        || true\n    println(a)\n}\n",
        b"true\n",
    ),
    (b"fun main() {\n    println(1\n        < 2)\n}\n", b"true\n"),
];

// Strings with their escapes, and texts that are joined.
const STRINGS: [(&[u8], &[u8]); 16] = [
    (
        b"fun main() { println(\"tab\\tquote\\\"dollar\\$ back\\\\ u\\u0041\") }",
        b"tab\tquote\"dollar$ back\\ uA\n",
    ),
    (b"fun main() { print(\"a\\nb\\r\\b\\'\") }", b"a\nb\r\x08'"),
    (b"fun main() { println(\"$ $1 a$\") }", b"$ $1 a$\n"),
    (
        b"fun main() { println(\"\\u20AC\\u00e4\") }",
        b"\xE2\x82\xAC\xC3\xA4\n",
    ),
    (
        b"fun main() {\n    println(\"\xC3\xA4\xE2\x82\xAC\xF0\x9F\x98\x80\")\n    println(\"\xC3\xA4\xE2\x82\xAC\" == \"\\u00E4\\u20ac\")\n}\n",
        b"\xC3\xA4\xE2\x82\xAC\xF0\x9F\x98\x80\ntrue\n",
    ),
    (b"fun main() { println(\"\"); print(\"\" + \"\") }", b"\n"),
    (
        b"fun main() { println(\"// no /* comment */ {}\") }",
        b"// no /* comment */ {}\n",
    ),
    (b"fun main() { println(\"a\" + 1 + 2) }", b"a12\n"),
    (
        b"fun main() { println(\"\" + (1 + 2) + \"b\" + 7 / 2 + -1) }",
        b"3b3-1\n",
    ),
    (
        b"fun main() { println(\"a\" + true + !true + \"b\") }",
        b"atruefalseb\n",
    ),
    (
        b"fun main() { println(\"a\" + print(\"b\")) }",
        b"bakotlin.Unit\n",
    ),
    (
        b"fun main() {\n    var s = \"a\"\n    s += 1\n    s += \"b\"\n    s += true\n    println(s)\n}\n",
        b"a1btrue\n",
    ),
    // What `x++` does is `x += 1`.
    (
        b"fun main() {\n    var s = \"a\"\n    s++\n    println(s)\n}\n",
        b"a1\n",
    ),
    (
        b"fun show(s: String): String = \"[\" + s + \"]\"\nfun main() {\n    val s: Any = \"a\"\n    println(s)\n    println(show(\"b\") + show(\"\") + s)\n}\n",
        b"a\n[b][]a\n",
    ),
    (
        b"fun f(b: Boolean): String {\n    val s = if (b) \"a\" else error(\"no\")\n    return s + 1\n}\nfun main() { println(f(true)) }\n",
        b"a1\n",
    ),
    (
        b"fun main() {\n    \"a\"\n    true\n    1 + 2; !false; 1 < 2; (\"b\")\n    println(\"x\")\n}\n",
        b"x\n",
    ),
];

// Quotients and remainders by the signs of their operands, at the ends of the range, and where they are not needed.
const QUOTIENTS: [(&[u8], &[u8]); 8] = [
    (
        b"fun main() {\n    println(2147483647 + 1)\n    println((-2147483647 - 1) / -1)\n}\n",
        b"-2147483648\n-2147483648\n",
    ),
    (
        b"fun main() {\n    val least = -2147483647 - 1\n    val one = -1\n    println(least / one)\n    println(least % one)\n}\n",
        b"-2147483648\n0\n",
    ),
    (
        b"fun main() {\n    println(-7 / 2)\n    println(-7 % 2)\n    println(7 / -2)\n    println(7 % -2)\n    println(-7 / -2)\n    println(-7 % -2)\n}\n",
        b"-3\n-1\n-3\n1\n3\n-1\n",
    ),
    (
        b"fun main() {\n    println(7 - 6 / 3 * 2 % 3)\n    println(100 / 10 / 5)\n    println(100 / (10 / 5))\n    println(17 % 7 % 2)\n    println(0 / 5 + 0 % 5)\n}\n",
        b"6\n2\n50\n1\n0\n",
    ),
    (
        b"fun main() {\n    var x = 2147483647\n    x++\n    println(x)\n    x--\n    println(x)\n    x *= 3\n    println(x)\n    x /= -1\n    println(x)\n    x %= 10\n    println(x)\n}\n",
        b"-2147483648\n2147483647\n2147483645\n-2147483645\n-5\n",
    ),
    (
        b"fun main() {\n    val max = 2147483647\n    val min = -max - 1\n    println(max + 1 == min)\n    println(min - 1)\n    println(-min)\n    println(max * 2)\n    println(min / -1)\n    println(min % -1)\n    println(max * max)\n    println(min * min)\n    println(-7 / 2)\n    println(-7 % 2)\n    println(7 / -2)\n    println(7 % -2)\n    println(0x7FFFFFFF - 0b1010)\n    println(1_000_000 * 3000)\n}\n",
        b"true\n2147483647\n-2147483648\n-2\n-2147483648\n0\n1\n0\n-3\n-1\n-3\n1\n2147483637\n-1294967296\n",
    ),
    // What is not needed is not divided.
    (
        b"fun main() {\n    println(false && 1 / 0 == 0)\n    println(true || 1 % 0 == 0)\n    println(if (true) 1 else 1 / 0)\n}\n",
        b"false\ntrue\n1\n",
    ),
    (
        b"fun main() {\n    println(require(true))\n    println(check(1 < 2))\n}\n",
        b"kotlin.Unit\nkotlin.Unit\n",
    ),
];

#[test]
fn truth_values_are_printed(rt: HostRuntime) -> Result<(), Fail> {
    for (source, out) in TRUTHS {
        answers(&rt, rt.alloc(), Case { source, ..PLAIN }, 0, out, b"")?;
    }
    Ok(())
}

#[test]
fn texts_are_joined(rt: HostRuntime) -> Result<(), Fail> {
    for (source, out) in STRINGS {
        answers(&rt, rt.alloc(), Case { source, ..PLAIN }, 0, out, b"")?;
    }
    Ok(())
}

#[test]
fn quotients_are_printed(rt: HostRuntime) -> Result<(), Fail> {
    for (source, out) in QUOTIENTS {
        answers(&rt, rt.alloc(), Case { source, ..PLAIN }, 0, out, b"")?;
    }
    Ok(())
}
