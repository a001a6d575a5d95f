// Files that are refused for the type of a branch, and their reports. The first finding by its place is told.
use super::{Case, PLAIN, answers};
use std::test::Fail;

// Branches that end in an expression of another type.
const BRANCHES: [(&[u8], &[u8]); 10] = [
    (
        b"fun main() {\n    val x: Int = if (true) 1 else \"a\"\n}\n",
        b"2:35-2:38 MISMATCH type does not fit\nrefused findings=1\n",
    ),
    (
        b"fun main() {\n    val x: String = if (true) 1 else \"a\"\n}\n",
        b"2:31-2:32 MISMATCH type does not fit\nrefused findings=1\n",
    ),
    (
        b"fun main() {\n    val x = if (1) 2 else 3\n}\n",
        b"2:17-2:18 MISMATCH type does not fit\nrefused findings=1\n",
    ),
    (
        b"fun f(b: Boolean): Int = if (b) { println(1) } else 2\nfun main() { }\n",
        b"1:35-1:45 MISMATCH type does not fit\nrefused findings=1\n",
    ),
    (
        b"fun f(b: Boolean): Int {\n    return if (b) 1 else \"a\"\n}\nfun main() { }\n",
        b"2:26-2:29 MISMATCH type does not fit\nrefused findings=1\n",
    ),
    (
        b"fun f(a: Boolean, b: Boolean): Int = if (a) 1 else if (b) \"b\" else 3\nfun main() { }\n",
        b"1:59-1:62 MISMATCH type does not fit\nrefused findings=1\n",
    ),
    (
        b"fun main() {\n    val x: Int = if (true) { if (false) true else 1 } else 2\n}\n",
        b"2:41-2:45 MISMATCH type does not fit\nrefused findings=1\n",
    ),
    (
        b"fun main() {\n    val a = if (true) 1 else \"a\"\n    val n: Int = a\n}\n",
        b"3:18-3:19 MISMATCH type does not fit\nrefused findings=1\n",
    ),
    (
        b"fun main() {\n    println(1 + (if (true) 1 else \"a\"))\n}\n",
        b"2:35-2:38 MISMATCH type does not fit\nrefused findings=1\n",
    ),
    (
        b"fun main() {\n    println((if (true) \"a\" else 1) + \"b\")\n}\n",
        b"2:24-2:27 MISMATCH type does not fit\nrefused findings=1\n",
    ),
];

// Blocks that are empty or end in no expression, so that their value is `Unit`.
const BLOCKS: [(&[u8], &[u8]); 19] = [
    (
        b"fun main() {\n    val x: Int = if (true) { } else 1\n}\n",
        b"2:28-2:31 MISMATCH type does not fit\nrefused findings=1\n",
    ),
    (
        b"fun main() {\n    val x: Int = if (true) 1 else { }\n}\n",
        b"2:35-2:38 MISMATCH type does not fit\nrefused findings=1\n",
    ),
    (
        b"fun main() {\n    val x: Int = if (true) {\n    } else 1\n}\n",
        b"2:28-3:6 MISMATCH type does not fit\nrefused findings=1\n",
    ),
    (
        b"fun main() {\n    val x: Int = if (true) { ; } else 1\n}\n",
        b"2:28-2:33 MISMATCH type does not fit\nrefused findings=1\n",
    ),
    (
        b"fun f(b: Boolean): Int = if (b) { } else 1\nfun main() { }\n",
        b"1:33-1:36 MISMATCH type does not fit\nrefused findings=1\n",
    ),
    (
        b"fun f(b: Boolean): String {\n    return if (b) \"a\" else { }\n}\nfun main() { }\n",
        b"2:28-2:31 MISMATCH type does not fit\nrefused findings=1\n",
    ),
    (
        b"fun f(n: Int) { }\nfun main() { f(if (true) { } else 1) }\n",
        b"2:26-2:29 MISMATCH type does not fit\nrefused findings=1\n",
    ),
    (
        b"fun main() {\n    val x: Int = if (true) { if (false) { } else 1 } else 2\n}\n",
        b"2:41-2:44 MISMATCH type does not fit\nrefused findings=1\n",
    ),
    (
        b"fun main() {\n    val x: Int = if (true) { println(1); val y = 2 } else 1\n}\n",
        b"2:42-2:51 MISMATCH type does not fit\nrefused findings=1\n",
    ),
    (
        b"fun main() {\n    var y = 1\n    val x: Int = if (true) { y = 2 } else 1\n}\n",
        b"3:30-3:35 MISMATCH type does not fit\nrefused findings=1\n",
    ),
    (
        b"fun main() {\n    var y = 1\n    val x: Boolean = if (true) true else { print(y); y++ }\n}\n",
        b"3:54-3:57 MISMATCH type does not fit\nrefused findings=1\n",
    ),
    (
        b"fun main() {\n    val s: String = if (true) { val t: String } else \"b\"\n}\n",
        b"2:33-2:46 MISMATCH type does not fit\nrefused findings=1\n",
    ),
    (
        b"fun f(b: Boolean) {\n    var y = 1\n    val x: Int = if (b) { if (b) return; y = 2 } else 1\n}\nfun main() { }\n",
        b"3:42-3:47 MISMATCH type does not fit\nrefused findings=1\n",
    ),
    // No path leads to the end of these blocks, but none of their statements is an expression of type `Nothing`.
    (
        b"fun f(b: Boolean) {\n    var y = 1\n    val x: Int = if (b) { if (b) return else return; y = 2 } else 1\n}\nfun main() { }\n",
        b"3:54-3:59 MISMATCH type does not fit\nrefused findings=1\n",
    ),
    (
        b"fun main() {\n    var y = 1\n    val x: Int = if (true) { val z: Int = return; y = 2 } else 1\n}\n",
        b"3:51-3:56 MISMATCH type does not fit\nrefused findings=1\n",
    ),
    (
        b"fun main() {\n    var y = 1\n    return\n    val x: Int = if (true) { y = 2 } else 1\n}\n",
        b"4:30-4:35 MISMATCH type does not fit\nrefused findings=1\n",
    ),
    // Here one is, but a path leads to the end.
    (
        b"fun f(n: Nothing, b: Boolean) {\n    var y = 1\n    val x: Int = if (b) { n; y = 2 } else 1\n}\nfun main() { }\n",
        b"3:30-3:35 MISMATCH type does not fit\nrefused findings=1\n",
    ),
    // A statement one of whose parts has no type has no finding of its own.
    (
        b"fun main() {\n    val x: Int = if (true) { val y = 1 + true } else 2\n}\n",
        b"2:42-2:46 MISMATCH type does not fit\nrefused findings=1\n",
    ),
    // A block that ends by an expression has its type.
    (
        b"fun main() {\n    val x: Int = if (true) { error(\"a\"); println(1) } else 2\n}\n",
        b"2:42-2:52 MISMATCH type does not fit\nrefused findings=1\n",
    ),
];

#[test]
fn branches_fit(rt: HostRuntime) -> Result<(), Fail> {
    for (source, report) in BRANCHES {
        answers(&rt, rt.alloc(), Case { source, ..PLAIN }, 1, b"", report)?;
    }
    Ok(())
}

#[test]
fn blocks_fit(rt: HostRuntime) -> Result<(), Fail> {
    for (source, report) in BLOCKS {
        answers(&rt, rt.alloc(), Case { source, ..PLAIN }, 1, b"", report)?;
    }
    Ok(())
}
