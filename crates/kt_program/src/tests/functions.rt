// Accepted sources with functions, and what they print.
use super::{Case, PLAIN, answers};
use std::test::Fail;

// Parameters, results, bodies of both kinds, and what a name stands for.
const FUNCTIONS: [(&[u8], &[u8]); 17] = [
    (
        b"fun add(a: Int, b: Int): Int {\n    return a + b\n}\nfun main() { println(add(1, 2)) }\n",
        b"3\n",
    ),
    (
        b"fun main() { println(twice(4)) }\nfun twice(n: Int): Int = n * 2\n",
        b"8\n",
    ),
    (
        b"fun f() { }\nfun g(): Unit { return }\nfun h(): Unit = println(\"h\")\nfun main() {\n    println(f())\n    println(g())\n    println(h())\n}\n",
        b"kotlin.Unit\nkotlin.Unit\nh\nkotlin.Unit\n",
    ),
    (b"fun main(): Unit = println(1)", b"1\n"),
    (b"fun main(): Unit { println(2) }", b"2\n"),
    (
        b"fun add(\n    a: Int,\n    b: Int,\n): Int = a + b\nfun main() {\n    println(add(\n        1,\n        2,\n    ))\n}\n",
        b"3\n",
    ),
    (
        b"fun f(n: Int)\n    : Int\n    = n\nfun main()\n{\n    println(f(3))\n}\n",
        b"3\n",
    ),
    (
        b"fun f() { print(1) };; fun g() { print(2) } fun main() { f(); g() };",
        b"12",
    ),
    (
        b"fun show(u: Unit, x: Any, s: String, b: Boolean) {\n    print(u)\n    print(x)\n    print(s)\n    print(b)\n}\nfun main() { show(print(\"a\"), 1, \"b\", true) }\n",
        b"akotlin.Unit1btrue",
    ),
    (
        b"fun pick(b: Boolean): Any {\n    if (b) return 1\n    return \"one\"\n}\nfun main() {\n    println(pick(true))\n    println(pick(false))\n}\n",
        b"1\none\n",
    ),
    (
        b"fun never(n: Nothing): Int = n\nfun f(): Int = return 5\nfun main() { println(f()) }\n",
        b"5\n",
    ),
    (
        b"fun f(e: ArithmeticException): Throwable = e\nfun g(n: Nothing) { f(n) }\nfun main() { println(1) }\n",
        b"1\n",
    ),
    // A local may have the name of a parameter, and is not seen in its own initialiser.
    (
        b"fun f(x: Int) {\n    val x = x + 1\n    println(x)\n}\nfun main() { f(1) }\n",
        b"2\n",
    ),
    // The name of a call means a function, whatever variable has it.
    (
        b"fun f(f: Int): Int = if (f > 0) f(f - 1) else f\nfun main() { println(f(3)) }\n",
        b"0\n",
    ),
    // A function of the file hides what is built in.
    (
        b"fun error(m: String): String = \"own \" + m\nfun main() { println(error(\"x\")) }\n",
        b"own x\n",
    ),
    (
        b"fun println(n: Int) {\n    print(n)\n    print(\";\")\n}\nfun main() { println(1) }\n",
        b"1;",
    ),
    (
        b"fun Any(): Int = 1\nfun main() { println(Any()) }\n",
        b"1\n",
    ),
];

// Functions that call themselves or one another.
const RECURSION: [(&[u8], &[u8]); 9] = [
    (
        b"fun factorial(n: Int): Int = if (n < 2) 1 else n * factorial(n - 1)\nfun main() { println(factorial(10)) }\n",
        b"3628800\n",
    ),
    (
        b"fun fib(n: Int): Int {\n    if (n < 2) return n\n    return fib(n - 1) + fib(n - 2)\n}\nfun main() { println(fib(10)) }\n",
        b"55\n",
    ),
    (
        b"fun gcd(a: Int, b: Int): Int = if (b == 0) a else gcd(b, a % b)\nfun main() { println(gcd(252, 105)) }\n",
        b"21\n",
    ),
    (
        b"fun isEven(n: Int): Boolean = if (n == 0) true else isOdd(n - 1)\nfun isOdd(n: Int): Boolean = if (n == 0) false else isEven(n - 1)\nfun main() {\n    println(isEven(14))\n    println(isOdd(10))\n}\n",
        b"true\nfalse\n",
    ),
    (
        b"fun ack(m: Int, n: Int): Int =\n    if (m == 0) n + 1 else if (n == 0) ack(m - 1, 1) else ack(m - 1, ack(m, n - 1))\nfun main() { println(ack(2, 3)) }\n",
        b"9\n",
    ),
    (
        b"fun power(base: Int, n: Int): Int {\n    if (n == 0) return 1\n    val half = power(base, n / 2)\n    if (n % 2 == 0) return half * half\n    return half * half * base\n}\nfun main() {\n    println(power(3, 13))\n    println(power(-2, 31))\n}\n",
        b"1594323\n-2147483648\n",
    ),
    (
        b"fun hanoi(n: Int, a: String, b: String, c: String): Int {\n    if (n == 0) return 0\n    val k = hanoi(n - 1, a, c, b)\n    if (n > 2) println(\"disc \" + n + \" from \" + a + \" to \" + c)\n    return k + 1 + hanoi(n - 1, b, a, c)\n}\nfun main() { println(hanoi(4, \"A\", \"B\", \"C\")) }\n",
        b"disc 3 from A to B\ndisc 4 from A to C\ndisc 3 from B to C\n15\n",
    ),
    (
        b"fun binary(n: Int): String {\n    if (n < 0) return \"-\" + binary(-n)\n    if (n < 2) return \"\" + n\n    return binary(n / 2) + n % 2\n}\nfun main() {\n    println(binary(10))\n    println(binary(-255))\n}\n",
        b"1010\n-11111111\n",
    ),
    // Each call has locals of its own.
    (
        b"fun sum(n: Int): Int {\n    var x = n\n    val y: Int\n    if (n > 0) y = sum(n - 1) else y = 0\n    x += y\n    return x\n}\nfun main() { println(sum(4)) }\n",
        b"10\n",
    ),
];

// Functions that are left before their end, and what is never run.
const RETURNS: [(&[u8], &[u8]); 11] = [
    (
        b"fun size(n: Int): String {\n    if (n < 10) {\n        if (n < 0) return \"negative\"\n        if (n == 0) { return \"none\" } else if (n == 1) return \"one\"\n        return \"few\"\n    } else {\n        if (n < 100) return \"many\"\n    }\n    return \"lots\"\n}\nfun main() {\n    println(size(-1))\n    println(size(0))\n    println(size(1))\n    println(size(5))\n    println(size(50))\n    println(size(500))\n}\n",
        b"negative\nnone\none\nfew\nmany\nlots\n",
    ),
    (
        b"fun f(b: Boolean) {\n    if (b) return\n    println(1)\n}\nfun main() {\n    f(true)\n    f(false)\n}\n",
        b"1\n",
    ),
    // The line end ends the `return`.
    (
        b"fun main() {\n    print(1)\n    return\n    print(2)\n}\n",
        b"1",
    ),
    (
        b"fun f(n: Int): Int {\n    val m = if (n > 0) n else return 0\n    return m * 2\n}\nfun main() {\n    println(f(4))\n    println(f(-4))\n}\n",
        b"8\n0\n",
    ),
    (
        b"fun f(n: Int) {\n    n > 0 || return\n    print(n)\n}\nfun main() {\n    f(1)\n    f(0)\n    f(2)\n}\n",
        b"12",
    ),
    (
        b"fun main() {\n    print(1)\n    if (return) print(2) else print(3)\n}\n",
        b"1",
    ),
    (
        b"fun f(): Int {\n    return 1 + (return 2)\n}\nfun main() { println(f()) }\n",
        b"2\n",
    ),
    // No path leads to the end of these bodies.
    (
        b"fun f(n: Int): Int {\n    if (n == 0) return 5 else { return n }\n}\nfun main() { println(f(0) + f(1)) }\n",
        b"6\n",
    ),
    (
        b"fun f(n: Int): Int {\n    if (n == 0) return 5\n    (return 6)\n}\nfun main() { println(f(1)) }\n",
        b"6\n",
    ),
    (
        b"fun f(): Int {\n    return 1\n    println(\"dead\")\n}\nfun main() {\n    println(f())\n    return\n    println(\"dead\")\n}\n",
        b"1\n",
    ),
    // Where nothing comes, nothing needs a value and no `val` is assigned twice.
    (
        b"fun f(b: Boolean): Int {\n    val x: Int\n    val y = 1\n    if (b) return y else return 2\n    println(x)\n    y = 3\n}\nfun main() { println(f(false)) }\n",
        b"2\n",
    ),
];

// What is printed on the way tells the order in which parts are evaluated.
const ORDER: [(&[u8], &[u8]); 12] = [
    (
        b"fun p(n: Int): Int {\n    print(n)\n    return n\n}\nfun three(a: Int, b: Int, c: Int): Int = a * 100 + b * 10 + c\nfun main() { println(three(p(1), p(2), p(3))) }\n",
        b"123123\n",
    ),
    (
        b"fun p(n: Int): Int {\n    print(n)\n    return n\n}\nfun three(a: Int, b: Int, c: Int): Int = a * 100 + b * 10 + c\nfun main() { println(three(p(1), three(p(2), p(3), p(4)), p(5))) }\n",
        b"123452445\n",
    ),
    (
        b"fun p(n: Int): Int {\n    print(n)\n    return n\n}\nfun main() { println(p(1) + p(2) * p(3)) }\n",
        b"1237\n",
    ),
    (
        b"fun p(n: Int): Int {\n    print(n)\n    return n\n}\nfun main() { println(p(7) / p(2) % p(2)) }\n",
        b"7221\n",
    ),
    (
        b"fun p(n: Int): Int {\n    print(n)\n    return n\n}\nfun main() { println(p(1) < p(2)) }\n",
        b"12true\n",
    ),
    (
        b"fun p(n: Int): Int {\n    print(n)\n    return n\n}\nfun main() { println(p(1) == p(2)) }\n",
        b"12false\n",
    ),
    (
        b"fun p(n: Int): Int {\n    print(n)\n    return n\n}\nfun main() { println(\"a\" + p(1) + p(2)) }\n",
        b"12a12\n",
    ),
    (
        b"fun p(n: Int): Int {\n    print(n)\n    return n\n}\nfun f(): Int { return p(1) - p(2) }\nfun main() { println(f()) }\n",
        b"12-1\n",
    ),
    (
        b"fun main() { println(println(println(\"a\"))) }",
        b"a\nkotlin.Unit\nkotlin.Unit\n",
    ),
    // The old value of a compound assignment is read first.
    (
        b"fun main() {\n    var x = 1\n    x += if (true) { x = 10; 5 } else 0\n    println(x)\n}\n",
        b"6\n",
    ),
    (
        b"fun main() {\n    var s = \"a\"\n    s += if (true) { s = \"b\"; \"c\" } else \"\"\n    println(s)\n}\n",
        b"ac\n",
    ),
    (
        b"fun main() {\n    var x = 1\n    println(x + (if (true) { x = 5; 1 } else 0) + x)\n}\n",
        b"7\n",
    ),
];

#[test]
fn functions_are_called(rt: HostRuntime) -> Result<(), Fail> {
    for (source, out) in FUNCTIONS {
        answers(&rt, rt.alloc(), Case { source, ..PLAIN }, 0, out, b"")?;
    }
    Ok(())
}

#[test]
fn functions_call_themselves(rt: HostRuntime) -> Result<(), Fail> {
    for (source, out) in RECURSION {
        answers(&rt, rt.alloc(), Case { source, ..PLAIN }, 0, out, b"")?;
    }
    Ok(())
}

#[test]
fn functions_return(rt: HostRuntime) -> Result<(), Fail> {
    for (source, out) in RETURNS {
        answers(&rt, rt.alloc(), Case { source, ..PLAIN }, 0, out, b"")?;
    }
    Ok(())
}

#[test]
fn parts_are_evaluated_in_order(rt: HostRuntime) -> Result<(), Fail> {
    for (source, out) in ORDER {
        answers(&rt, rt.alloc(), Case { source, ..PLAIN }, 0, out, b"")?;
    }
    Ok(())
}
