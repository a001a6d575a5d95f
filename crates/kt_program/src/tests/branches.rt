// Accepted sources with branches, and what they print.
use super::{Case, PLAIN, answers};
use std::test::Fail;

// The branch that is taken, its value, and the scopes of its locals.
const BRANCHES: [(&[u8], &[u8]); 11] = [
    (
        b"fun sign(n: Int): Int = if (n > 0) 1 else if (n < 0) -1 else 0\nfun main() { print(sign(7)); print(sign(-7)); print(sign(0)) }\n",
        b"1-10",
    ),
    (
        b"fun main() {\n    val a = if (1 < 2) \"plus\" else \"minus\"\n    var b = 0\n    b = if (a == \"plus\") { print(a); 2 } else { 3 }\n    println(b + if (false) 1 else 2)\n    println(-if (true) b else 0)\n    println(if (b == 2) \"two\" else b)\n    println(\"a\" + if (false) 1 else 2 + 3)\n}\n",
        b"plus4\n-2\ntwo\na5\n",
    ),
    // An `else` belongs to the nearest `if`.
    (
        b"fun f(a: Boolean, b: Boolean) {\n    if (a)\n        if (b) print(1)\n        else print(2)\n    print(3)\n}\nfun main() {\n    f(true, true)\n    f(true, false)\n    f(false, true)\n}\n",
        b"13233",
    ),
    (
        b"fun main() {\n    if (false) println(1)\n    // not that\n    else\n        println(2)\n}\n",
        b"2\n",
    ),
    (
        b"fun main() {\n    if (true) { } else println(1)\n    if (false) { println(2) }\n    if (true) 1 else \"a\"\n    if (!false) println(3)\n}\n",
        b"3\n",
    ),
    // A block without an expression at its end gives `Unit`.
    (
        b"fun f(b: Boolean): Any = if (b) { } else 1\nfun main() {\n    println(f(true))\n    println(f(false))\n    val x = if (true) { val y = 2 } else { 3 }\n    println(x)\n    var z = 1\n    val u: Unit = if (false) { } else { z = 2 }\n    println(u)\n}\n",
        b"kotlin.Unit\n1\nkotlin.Unit\nkotlin.Unit\n",
    ),
    // Such a block fits any type where it is left before.
    (
        b"fun f(b: Boolean): Int {\n    var y = 1\n    val x: Int = if (b) {\n        return 5\n        y = 2\n    } else y\n    return x\n}\nfun main() {\n    println(f(true))\n    println(f(false))\n}\n",
        b"5\n1\n",
    ),
    // An `if` that is not last in its block needs no `else`, and may assign.
    (
        b"fun main() {\n    var x = 1\n    val y = if (true) { if (x == 1) x = 2; x + 3 } else 4\n    println(y)\n}\n",
        b"5\n",
    ),
    (
        b"fun main() {\n    val x = 1\n    if (x == 1) {\n        print(x)\n        val x = 2\n        if (true) { val x = 3; print(x) }\n        print(x)\n    }\n    print(x)\n}\n",
        b"1321",
    ),
    (
        b"fun main() {\n    if (true) { val a = 1; print(a) } else { val a = \"x\"; print(a) }\n    val a = true\n    print(a)\n}\n",
        b"1true",
    ),
    (
        b"fun pick(b: Boolean) {\n    val x = if (b) 1 else \"one\"\n    println(x)\n}\nfun main() {\n    pick(true)\n    pick(false)\n}\n",
        b"1\none\n",
    ),
];

// Locals that are assigned on every path to where they are read, each `val` once.
const PATHS: [(&[u8], &[u8]); 6] = [
    (
        b"fun f(b: Boolean): Int {\n    val x: Int\n    if (b) x = 1 else x = 2\n    return x\n}\nfun main() {\n    println(f(true))\n    println(f(false))\n}\n",
        b"1\n2\n",
    ),
    (
        b"fun f(a: Boolean, b: Boolean): String {\n    val x: String\n    if (a) {\n        if (b) { x = \"1\" } else { x = \"2\" }\n    } else if (b) {\n        x = \"3\"\n    } else {\n        x = \"4\"\n    }\n    return x\n}\nfun main() {\n    print(f(true, true)); print(f(true, false)); print(f(false, true)); print(f(false, false))\n}\n",
        b"1234",
    ),
    (
        b"fun f(b: Boolean) {\n    val x: Int\n    if (b) { x = 1; print(x); return }\n    x = 2\n    print(x)\n}\nfun main() {\n    f(true)\n    f(false)\n}\n",
        b"12",
    ),
    (
        b"fun f(b: Boolean): Int {\n    val x: Int\n    if (b && (if (true) { x = 1; true } else { x = 2; false })) return x\n    return 3\n}\nfun main() {\n    println(f(true))\n    println(f(false))\n}\n",
        b"1\n3\n",
    ),
    (
        b"fun f(b: Boolean) {\n    val x: Int\n    if (b || (if (false) { x = 1; true } else { x = 2; false })) print(0) else print(x)\n}\nfun main() {\n    f(true)\n    f(false)\n}\n",
        b"02",
    ),
    (
        b"fun main() {\n    var x: Int\n    if (true) x = 1 else x = 2\n    x += 1\n    val y = if (x == 2) { x = 7; x } else x\n    println(y)\n}\n",
        b"7\n",
    ),
];

#[test]
fn branches_are_taken(rt: HostRuntime) -> Result<(), Fail> {
    for (source, out) in BRANCHES {
        answers(&rt, rt.alloc(), Case { source, ..PLAIN }, 0, out, b"")?;
    }
    Ok(())
}

#[test]
fn locals_are_assigned_on_every_path(rt: HostRuntime) -> Result<(), Fail> {
    for (source, out) in PATHS {
        answers(&rt, rt.alloc(), Case { source, ..PLAIN }, 0, out, b"")?;
    }
    Ok(())
}
