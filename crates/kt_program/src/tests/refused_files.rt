// Files that are refused, and their reports. Each phase of the rules, or two, has an array of its own.
use super::{Case, PLAIN, answers};
use std::test::Fail;

// What is wrong with declarations, and then with what they must have. A phase is looked at only where those before it have no finding.
const DECLARATIONS: [(&[u8], &[u8]); 14] = [
    (
        b"",
        b"1:1-1:1 NO_MAIN no function main without parameters\nrefused findings=1\n",
    ),
    (
        b"// nothing\n",
        b"1:1-1:1 NO_MAIN no function main without parameters\nrefused findings=1\n",
    ),
    (
        b"fun Main() { }",
        b"1:1-1:1 NO_MAIN no function main without parameters\nrefused findings=1\n",
    ),
    (
        b"fun f() { main() }",
        b"1:1-1:1 NO_MAIN no function main without parameters\nrefused findings=1\n",
    ),
    (
        b"fun f() { val x: Foo }",
        b"1:1-1:1 NO_MAIN no function main without parameters\nrefused findings=1\n",
    ),
    (
        b"fun main() { val x: Foo = 1 }",
        b"1:21-1:24 UNKNOWN_TYPE unknown type\nrefused findings=1\n",
    ),
    (
        b"fun main() { val x: println = 1 }",
        b"1:21-1:28 UNKNOWN_TYPE unknown type\nrefused findings=1\n",
    ),
    (
        b"fun main() { val x: main = 1 }",
        b"1:21-1:25 UNKNOWN_TYPE unknown type\nrefused findings=1\n",
    ),
    (
        b"fun main() {\n    val x: Foo\n    val y: Bar\n}\n",
        b"2:12-2:15 UNKNOWN_TYPE unknown type\nrefused findings=1\n",
    ),
    (
        b"fun main() {\n    println(y)\n    val x: Foo\n}\n",
        b"3:12-3:15 UNKNOWN_TYPE unknown type\nrefused findings=1\n",
    ),
    (
        b"fun main()",
        b"1:5-1:9 BODY body does not fit\nrefused findings=1\n",
    ),
    (
        b"fun main() { val x }",
        b"1:18-1:19 NO_TYPE type must be written\nrefused findings=1\n",
    ),
    (
        b"fun main() { var x; x = 1 }",
        b"1:18-1:19 NO_TYPE type must be written\nrefused findings=1\n",
    ),
    (
        b"fun main() {\n    println(y)\n    val x\n}\n",
        b"3:9-3:10 NO_TYPE type must be written\nrefused findings=1\n",
    ),
];

// Names that stand for nothing, or for something else; and left sides.
const NAMES: [(&[u8], &[u8]); 22] = [
    (
        b"fun main() { println(y) }",
        b"1:22-1:23 UNKNOWN_NAME unknown name\nrefused findings=1\n",
    ),
    (
        b"fun main() { y = 1 }",
        b"1:14-1:15 UNKNOWN_NAME unknown name\nrefused findings=1\n",
    ),
    (
        b"fun main() { y++ }",
        b"1:14-1:15 UNKNOWN_NAME unknown name\nrefused findings=1\n",
    ),
    (
        b"fun main() { foo() }",
        b"1:14-1:17 UNKNOWN_NAME unknown name\nrefused findings=1\n",
    ),
    (
        b"fun main() { val x = x }",
        b"1:22-1:23 UNKNOWN_NAME unknown name\nrefused findings=1\n",
    ),
    (
        b"fun main() {\n    println(x)\n    val x = 1\n}\n",
        b"2:13-2:14 UNKNOWN_NAME unknown name\nrefused findings=1\n",
    ),
    (
        b"fun main() {\n    println(b)\n    println(a)\n}\n",
        b"2:13-2:14 UNKNOWN_NAME unknown name\nrefused findings=1\n",
    ),
    (
        b"fun main() { println(main) }",
        b"1:22-1:26 NOT_A_VALUE name is not a value\nrefused findings=1\n",
    ),
    (
        b"fun main() { println(println) }",
        b"1:22-1:29 NOT_A_VALUE name is not a value\nrefused findings=1\n",
    ),
    (
        b"fun main() { println(Int) }",
        b"1:22-1:25 NOT_A_VALUE name is not a value\nrefused findings=1\n",
    ),
    (
        b"fun main() { main = 1 }",
        b"1:14-1:18 NOT_A_VALUE name is not a value\nrefused findings=1\n",
    ),
    (
        b"fun main() {\n    println\n    (1)\n}\n",
        b"2:5-2:12 NOT_A_VALUE name is not a value\nrefused findings=1\n",
    ),
    (
        b"fun main() {\n    val x = 1\n    x()\n}\n",
        b"3:5-3:6 NOT_A_FUNCTION name is not a function\nrefused findings=1\n",
    ),
    (
        b"fun main() {\n    val x = 1\n    val x = 2\n}\n",
        b"3:9-3:10 DUPLICATE_LOCAL name is declared already\nrefused findings=1\n",
    ),
    (
        b"fun main() {\n    val x = 1\n    val y: Int\n    val x = y\n}\n",
        b"4:9-4:10 DUPLICATE_LOCAL name is declared already\nrefused findings=1\n",
    ),
    (
        b"fun main() {\n    1 = 2\n    println(y)\n}\n",
        b"3:13-3:14 UNKNOWN_NAME unknown name\nrefused findings=1\n",
    ),
    (
        b"fun main() { 1 = 2 }",
        b"1:14-1:15 ASSIGN_TARGET cannot be assigned\nrefused findings=1\n",
    ),
    (
        b"fun main() { 1++ }",
        b"1:14-1:15 ASSIGN_TARGET cannot be assigned\nrefused findings=1\n",
    ),
    (
        b"fun main() { println() = 1 }",
        b"1:14-1:23 ASSIGN_TARGET cannot be assigned\nrefused findings=1\n",
    ),
    (
        b"fun main() {\n    var x = 1\n    (x) = 2\n}\n",
        b"3:5-3:8 ASSIGN_TARGET cannot be assigned\nrefused findings=1\n",
    ),
    (
        b"fun main() {\n    var x = 1\n    x + 1 += 2\n}\n",
        b"3:5-3:10 ASSIGN_TARGET cannot be assigned\nrefused findings=1\n",
    ),
    (
        b"fun main() {\n    val x: Int\n    println(x)\n    1 = 2\n}\n",
        b"4:5-4:6 ASSIGN_TARGET cannot be assigned\nrefused findings=1\n",
    ),
];

// Paths on which a local has no value, or a `val` two, and types that do not fit. The first finding by its place is told.
const BODIES: [(&[u8], &[u8]); 23] = [
    (
        b"fun main() {\n    val x: Int\n    println(x)\n}\n",
        b"3:13-3:14 UNASSIGNED variable may be unassigned\nrefused findings=1\n",
    ),
    (
        b"fun main() {\n    val x: Int\n    x = x\n}\n",
        b"3:9-3:10 UNASSIGNED variable may be unassigned\nrefused findings=1\n",
    ),
    (
        b"fun main() {\n    var x: Int\n    x += 1\n}\n",
        b"3:5-3:6 UNASSIGNED variable may be unassigned\nrefused findings=1\n",
    ),
    (
        b"fun main() {\n    var x: Int\n    x--\n}\n",
        b"3:5-3:6 UNASSIGNED variable may be unassigned\nrefused findings=1\n",
    ),
    (
        b"fun main() {\n    val x: Int\n    println(x + println())\n}\n",
        b"3:13-3:14 UNASSIGNED variable may be unassigned\nrefused findings=1\n",
    ),
    (
        b"fun main() {\n    val x: Int\n    x = 2\n    x = 3\n}\n",
        b"4:5-4:6 VAL_TWICE val may be assigned twice\nrefused findings=1\n",
    ),
    (
        b"fun main() {\n    val x = 1\n    x = 2\n}\n",
        b"3:5-3:6 VAL_TWICE val may be assigned twice\nrefused findings=1\n",
    ),
    (
        b"fun main() {\n    val x = 1\n    x += 2\n}\n",
        b"3:5-3:6 VAL_TWICE val may be assigned twice\nrefused findings=1\n",
    ),
    (
        b"fun main() {\n    val x = 1\n    x++\n}\n",
        b"3:5-3:6 VAL_TWICE val may be assigned twice\nrefused findings=1\n",
    ),
    (
        b"fun main() { val x: Int = println() }",
        b"1:27-1:36 MISMATCH type does not fit\nrefused findings=1\n",
    ),
    (
        b"fun main() { val x: Int = (println()) }",
        b"1:28-1:37 MISMATCH type does not fit\nrefused findings=1\n",
    ),
    (
        b"fun main() { val x: Unit = 1 }",
        b"1:28-1:29 MISMATCH type does not fit\nrefused findings=1\n",
    ),
    (
        b"fun main() { val x: Boolean = 1 }",
        b"1:31-1:32 MISMATCH type does not fit\nrefused findings=1\n",
    ),
    (
        b"fun main() { println(1 + println()) }",
        b"1:26-1:35 MISMATCH type does not fit\nrefused findings=1\n",
    ),
    (
        b"fun main() { println(println() + 1) }",
        b"1:22-1:31 MISMATCH type does not fit\nrefused findings=1\n",
    ),
    (
        b"fun main() { println(-println()) }",
        b"1:23-1:32 MISMATCH type does not fit\nrefused findings=1\n",
    ),
    (
        b"fun main() {\n    var x = 1\n    x = println()\n}\n",
        b"3:9-3:18 MISMATCH type does not fit\nrefused findings=1\n",
    ),
    (
        b"fun main() {\n    var u = print(1)\n    u += 1\n}\n",
        b"3:5-3:6 MISMATCH type does not fit\nrefused findings=1\n",
    ),
    (
        b"fun main() {\n    val x: Int\n    println(println() + x)\n}\n",
        b"3:13-3:22 MISMATCH type does not fit\nrefused findings=1\n",
    ),
    (
        b"fun main() { main(1) }",
        b"1:14-1:18 ARGUMENT_COUNT wrong number of arguments\nrefused findings=1\n",
    ),
    (
        b"fun main() { print() }",
        b"1:14-1:19 ARGUMENT_COUNT wrong number of arguments\nrefused findings=1\n",
    ),
    (
        b"fun main() { println(1, 2) }",
        b"1:14-1:21 ARGUMENT_COUNT wrong number of arguments\nrefused findings=1\n",
    ),
    (
        b"fun main() {\n    print(main(1))\n    val x = print() + 1\n}\n",
        b"2:11-2:15 ARGUMENT_COUNT wrong number of arguments\nrefused findings=1\n",
    ),
];

#[test]
fn declarations_are_refused(rt: HostRuntime) -> Result<(), Fail> {
    for (source, report) in DECLARATIONS {
        answers(&rt, rt.alloc(), Case { source, ..PLAIN }, 1, b"", report)?;
    }
    Ok(())
}

#[test]
fn names_and_left_sides_are_refused(rt: HostRuntime) -> Result<(), Fail> {
    for (source, report) in NAMES {
        answers(&rt, rt.alloc(), Case { source, ..PLAIN }, 1, b"", report)?;
    }
    Ok(())
}

#[test]
fn bodies_are_refused(rt: HostRuntime) -> Result<(), Fail> {
    for (source, report) in BODIES {
        answers(&rt, rt.alloc(), Case { source, ..PLAIN }, 1, b"", report)?;
    }
    Ok(())
}
