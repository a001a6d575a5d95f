// Files that are refused for the shape of a tree or for what comes along a path, and their reports.
use super::{Case, PLAIN, answers};
use std::test::Fail;

// Left sides that are no names.
const LEFT_SIDES: [(&[u8], &[u8]); 11] = [
    (
        b"fun main() { true = false }",
        b"1:14-1:18 ASSIGN_TARGET cannot be assigned\nrefused findings=1\n",
    ),
    (
        b"fun main() { \"a\" = \"b\" }",
        b"1:14-1:17 ASSIGN_TARGET cannot be assigned\nrefused findings=1\n",
    ),
    (
        b"fun f(): Int = 1\nfun main() { f() += 1 }\n",
        b"2:14-2:17 ASSIGN_TARGET cannot be assigned\nrefused findings=1\n",
    ),
    (
        b"fun main() {\n    var b = true\n    !b = false\n}\n",
        b"3:5-3:7 ASSIGN_TARGET cannot be assigned\nrefused findings=1\n",
    ),
    (
        b"fun main() {\n    var a = true\n    var b = true\n    a && b = false\n}\n",
        b"4:5-4:11 ASSIGN_TARGET cannot be assigned\nrefused findings=1\n",
    ),
    (
        b"fun main() {\n    var x = 1\n    x == 2 = true\n}\n",
        b"3:5-3:11 ASSIGN_TARGET cannot be assigned\nrefused findings=1\n",
    ),
    (
        b"fun main() { if (true) 1 else 2 = 3 }",
        b"1:31-1:32 ASSIGN_TARGET cannot be assigned\nrefused findings=1\n",
    ),
    (
        b"fun main() {\n    var x = 1\n    if (true) x + 1 /= 2\n}\n",
        b"3:15-3:20 ASSIGN_TARGET cannot be assigned\nrefused findings=1\n",
    ),
    (
        b"fun main() { -1++ }",
        b"1:14-1:16 ASSIGN_TARGET cannot be assigned\nrefused findings=1\n",
    ),
    (
        b"fun main() { return = 1 }",
        b"1:14-1:20 ASSIGN_TARGET cannot be assigned\nrefused findings=1\n",
    ),
    (
        b"fun main() {\n    var x = 1\n    return x %= 2\n}\n",
        b"3:5-3:13 ASSIGN_TARGET cannot be assigned\nrefused findings=1\n",
    ),
];

// An `if` whose value is taken has an `else`, and its branches have values.
const VALUES: [(&[u8], &[u8]); 17] = [
    (
        b"fun main() { val x = if (true) 1 }",
        b"1:22-1:33 NO_ELSE else is missing\nrefused findings=1\n",
    ),
    (
        b"fun main() { println(if (true) 1) }",
        b"1:22-1:33 NO_ELSE else is missing\nrefused findings=1\n",
    ),
    (
        b"fun main() { println(1 + if (true) 1) }",
        b"1:26-1:37 NO_ELSE else is missing\nrefused findings=1\n",
    ),
    (
        b"fun main() { println(!if (true) false) }",
        b"1:23-1:38 NO_ELSE else is missing\nrefused findings=1\n",
    ),
    (
        b"fun f(b: Boolean): Int {\n    return if (b) 1\n}\nfun main() { }\n",
        b"2:12-2:20 NO_ELSE else is missing\nrefused findings=1\n",
    ),
    (
        b"fun f(b: Boolean): Unit = if (b) println(1)\nfun main() { }\n",
        b"1:27-1:44 NO_ELSE else is missing\nrefused findings=1\n",
    ),
    (
        b"fun main() { (if (true) println(1)) }",
        b"1:15-1:35 NO_ELSE else is missing\nrefused findings=1\n",
    ),
    (
        b"fun main() { if (if (true) true) println(1) }",
        b"1:18-1:32 NO_ELSE else is missing\nrefused findings=1\n",
    ),
    (
        b"fun main() {\n    var x = 1\n    x = if (true) 2\n}\n",
        b"3:9-3:20 NO_ELSE else is missing\nrefused findings=1\n",
    ),
    (
        b"fun f(n: Int): String {\n    val r = if (n > 0) \"pos\" else if (n < 0) \"neg\"\n    return r\n}\nfun main() { println(f(1)) }\n",
        b"2:35-2:51 NO_ELSE else is missing\nrefused findings=1\n",
    ),
    // The last statement of a block is its value.
    (
        b"fun main() {\n    val x = if (true) {\n        println(1)\n        if (false) 2\n    } else 3\n}\n",
        b"4:9-4:21 NO_ELSE else is missing\nrefused findings=1\n",
    ),
    (
        b"fun main() {\n    var x = 1\n    val y = if (true) x = 2\n}\n",
        b"3:13-3:28 NO_ELSE else is missing\nrefused findings=1\n",
    ),
    (
        b"fun main() {\n    var x = 1\n    val y = if (true) x = 2 else 3\n}\n",
        b"3:23-3:28 VALUE_EXPECTED value expected\nrefused findings=1\n",
    ),
    (
        b"fun main() {\n    var x = 1\n    val y = if (true) 3 else x += 2\n}\n",
        b"3:30-3:36 VALUE_EXPECTED value expected\nrefused findings=1\n",
    ),
    (
        b"fun main() {\n    var x = 1\n    val y = if (true) x++ else 3\n}\n",
        b"3:23-3:26 VALUE_EXPECTED value expected\nrefused findings=1\n",
    ),
    (
        b"fun f(a: Boolean, b: Boolean): Int {\n    var x = 0\n    return if (a) 1 else if (b) x = 2 else 3\n}\nfun main() { }\n",
        b"3:33-3:38 VALUE_EXPECTED value expected\nrefused findings=1\n",
    ),
    (
        b"fun main() {\n    var x = 1\n    val y = if (true) { if (false) x = 2 else x = 3 } else 4\n}\n",
        b"3:36-3:41 VALUE_EXPECTED value expected\nrefused findings=1\n",
    ),
];

// Locals that have no value on some path.
const UNASSIGNED: [(&[u8], &[u8]); 15] = [
    (
        b"fun f(b: Boolean) {\n    val x: Int\n    if (b) x = 1\n    println(x)\n}\nfun main() { f(true) }\n",
        b"4:13-4:14 UNASSIGNED variable may be unassigned\nrefused findings=1\n",
    ),
    // A condition is taken to have both outcomes, whatever it is.
    (
        b"fun main() {\n    val x: Int\n    if (true) x = 1\n    println(x)\n}\n",
        b"4:13-4:14 UNASSIGNED variable may be unassigned\nrefused findings=1\n",
    ),
    (
        b"fun f(b: Boolean): Int {\n    val x: Int\n    if (b) { } else { x = 1 }\n    return x\n}\nfun main() { }\n",
        b"4:12-4:13 UNASSIGNED variable may be unassigned\nrefused findings=1\n",
    ),
    (
        b"fun f(a: Boolean, b: Boolean): Int {\n    val x: Int\n    if (a) {\n        if (b) x = 1\n    } else x = 2\n    return x\n}\nfun main() { }\n",
        b"6:12-6:13 UNASSIGNED variable may be unassigned\nrefused findings=1\n",
    ),
    (
        b"fun f(b: Boolean) {\n    val x: Int\n    if (b) x = 1\n    if (b) println(x)\n}\nfun main() { }\n",
        b"4:20-4:21 UNASSIGNED variable may be unassigned\nrefused findings=1\n",
    ),
    (
        b"fun main() {\n    val x: Int\n    if (x > 0) x = 1\n}\n",
        b"3:9-3:10 UNASSIGNED variable may be unassigned\nrefused findings=1\n",
    ),
    (
        b"fun f(n: Int): Int = n\nfun main() {\n    val x: Int\n    println(f(x))\n}\n",
        b"4:15-4:16 UNASSIGNED variable may be unassigned\nrefused findings=1\n",
    ),
    (
        b"fun f(b: Boolean): Int {\n    val x: Int\n    val y = if (b) { x = 1; 2 } else 3\n    return x + y\n}\nfun main() { }\n",
        b"4:12-4:13 UNASSIGNED variable may be unassigned\nrefused findings=1\n",
    ),
    (
        b"fun f(b: Boolean): Int {\n    val x: Int\n    if (b && (if (true) { x = 1; true } else { x = 2; false })) return x\n    return x\n}\nfun main() { }\n",
        b"4:12-4:13 UNASSIGNED variable may be unassigned\nrefused findings=1\n",
    ),
    (
        b"fun f(b: Boolean) {\n    val x: Int\n    if (b || (if (true) { x = 1; true } else { x = 2; false })) println(x) else println(x)\n}\nfun main() { }\n",
        b"3:73-3:74 UNASSIGNED variable may be unassigned\nrefused findings=1\n",
    ),
    (
        b"fun f(b: Boolean) {\n    var s: String\n    if (b) s = \"a\"\n    s += \"b\"\n}\nfun main() { }\n",
        b"4:5-4:6 UNASSIGNED variable may be unassigned\nrefused findings=1\n",
    ),
    // Of the findings of all bodies the first is told.
    (
        b"fun f() {\n    val x: Int\n    println(x)\n}\nfun main() { println(1 + true) }\n",
        b"3:13-3:14 UNASSIGNED variable may be unassigned\nrefused findings=1\n",
    ),
    // Only a function that is declared `Nothing` leaves its caller for good.
    (
        b"fun stop() { error(\"no\") }\nfun f(b: Boolean): Int {\n    val x: Int\n    if (b) x = 1 else stop()\n    return x\n}\nfun main() { }\n",
        b"5:12-5:13 UNASSIGNED variable may be unassigned\nrefused findings=1\n",
    ),
    (
        b"fun error(m: String) { println(m) }\nfun f(b: Boolean): Int {\n    val x: Int\n    if (b) x = 1 else error(\"no\")\n    return x\n}\nfun main() { }\n",
        b"5:12-5:13 UNASSIGNED variable may be unassigned\nrefused findings=1\n",
    ),
    (
        b"fun f(n: Nothing): Int {\n    val x: Int\n    n\n    return x\n}\nfun main() { }\n",
        b"4:12-4:13 UNASSIGNED variable may be unassigned\nrefused findings=1\n",
    ),
];

// A `val` or a parameter that has a value on some path and is assigned.
const TWICE: [(&[u8], &[u8]); 11] = [
    (
        b"fun f(n: Int) {\n    n = 2\n}\nfun main() { }\n",
        b"2:5-2:6 VAL_TWICE val may be assigned twice\nrefused findings=1\n",
    ),
    (
        b"fun clamp(n: Int): Int {\n    if (n < 0) n = 0\n    return n\n}\nfun main() { println(clamp(-1)) }\n",
        b"2:16-2:17 VAL_TWICE val may be assigned twice\nrefused findings=1\n",
    ),
    (
        b"fun f(n: Int) { n %= 2 }\nfun main() { }\n",
        b"1:17-1:18 VAL_TWICE val may be assigned twice\nrefused findings=1\n",
    ),
    (
        b"fun f(n: Int) { n++ }\nfun main() { }\n",
        b"1:17-1:18 VAL_TWICE val may be assigned twice\nrefused findings=1\n",
    ),
    (
        b"fun main() {\n    val x = 6\n    x /= 2\n}\n",
        b"3:5-3:6 VAL_TWICE val may be assigned twice\nrefused findings=1\n",
    ),
    (
        b"fun main() {\n    val s = \"a\"\n    s += 1\n}\n",
        b"3:5-3:6 VAL_TWICE val may be assigned twice\nrefused findings=1\n",
    ),
    (
        b"fun main() {\n    val x = 1\n    if (x == 1) x = 2\n}\n",
        b"3:17-3:18 VAL_TWICE val may be assigned twice\nrefused findings=1\n",
    ),
    (
        b"fun f(b: Boolean) {\n    val x: Int\n    if (b) x = 1\n    x = 2\n}\nfun main() { }\n",
        b"4:5-4:6 VAL_TWICE val may be assigned twice\nrefused findings=1\n",
    ),
    (
        b"fun f(b: Boolean) {\n    val x: Int\n    if (b) x = 1 else x = 2\n    x = 3\n}\nfun main() { }\n",
        b"4:5-4:6 VAL_TWICE val may be assigned twice\nrefused findings=1\n",
    ),
    (
        b"fun f(b: Boolean) {\n    val x: Int\n    if (if (b) { x = 1; true } else false) x = 2\n}\nfun main() { }\n",
        b"3:44-3:45 VAL_TWICE val may be assigned twice\nrefused findings=1\n",
    ),
    (
        b"fun f(b: Boolean) {\n    val x: Int\n    if (b && (if (true) { x = 1; true } else { x = 2; false })) println(x) else x = 3\n}\nfun main() { }\n",
        b"3:81-3:82 VAL_TWICE val may be assigned twice\nrefused findings=1\n",
    ),
];

// Bodies whose end is reached without a result.
const ENDS: [(&[u8], &[u8]); 13] = [
    (
        b"fun f(): Int { }\nfun main() { }\n",
        b"1:5-1:6 NO_RETURN end is reached without a value\nrefused findings=1\n",
    ),
    (
        b"fun f(): Int { 5 }\nfun main() { }\n",
        b"1:5-1:6 NO_RETURN end is reached without a value\nrefused findings=1\n",
    ),
    (
        b"fun f(): Any { val x = 1 }\nfun main() { }\n",
        b"1:5-1:6 NO_RETURN end is reached without a value\nrefused findings=1\n",
    ),
    (
        b"fun f(b: Boolean): Int {\n    if (b) return 1\n}\nfun main() { }\n",
        b"1:5-1:6 NO_RETURN end is reached without a value\nrefused findings=1\n",
    ),
    (
        b"fun f(b: Boolean): String {\n    if (b) return \"a\" else println(\"b\")\n}\nfun main() { }\n",
        b"1:5-1:6 NO_RETURN end is reached without a value\nrefused findings=1\n",
    ),
    (
        b"fun f(b: Boolean): Int {\n    if (b) {\n        return 1\n    } else if (b) {\n        return 2\n    }\n}\nfun main() { }\n",
        b"1:5-1:6 NO_RETURN end is reached without a value\nrefused findings=1\n",
    ),
    (
        b"fun f(n: Int): Boolean {\n    n > 0 && return true\n}\nfun main() { }\n",
        b"1:5-1:6 NO_RETURN end is reached without a value\nrefused findings=1\n",
    ),
    (
        b"fun f(n: Int): Boolean {\n    require(n > 0)\n}\nfun main() { }\n",
        b"1:5-1:6 NO_RETURN end is reached without a value\nrefused findings=1\n",
    ),
    (
        b"fun f(): Nothing { println(1) }\nfun main() { }\n",
        b"1:5-1:6 NO_RETURN end is reached without a value\nrefused findings=1\n",
    ),
    (
        b"fun stop() { error(\"no\") }\nfun f(): Int { stop() }\nfun main() { }\n",
        b"2:5-2:6 NO_RETURN end is reached without a value\nrefused findings=1\n",
    ),
    (
        b"fun error(m: String) { println(m) }\nfun f(): Int { error(\"no\") }\nfun main() { }\n",
        b"2:5-2:6 NO_RETURN end is reached without a value\nrefused findings=1\n",
    ),
    (
        b"fun f(n: Nothing): Int { n }\nfun main() { }\n",
        b"1:5-1:6 NO_RETURN end is reached without a value\nrefused findings=1\n",
    ),
    // The name of the function comes before what is in its body.
    (
        b"fun f(): Int { println(1 + true) }\nfun main() { }\n",
        b"1:5-1:6 NO_RETURN end is reached without a value\nrefused findings=1\n",
    ),
];

#[test]
fn left_sides_are_names(rt: HostRuntime) -> Result<(), Fail> {
    for (source, report) in LEFT_SIDES {
        answers(&rt, rt.alloc(), Case { source, ..PLAIN }, 1, b"", report)?;
    }
    Ok(())
}

#[test]
fn branches_have_values(rt: HostRuntime) -> Result<(), Fail> {
    for (source, report) in VALUES {
        answers(&rt, rt.alloc(), Case { source, ..PLAIN }, 1, b"", report)?;
    }
    Ok(())
}

#[test]
fn locals_are_assigned_before(rt: HostRuntime) -> Result<(), Fail> {
    for (source, report) in UNASSIGNED {
        answers(&rt, rt.alloc(), Case { source, ..PLAIN }, 1, b"", report)?;
    }
    Ok(())
}

#[test]
fn vals_are_assigned_once(rt: HostRuntime) -> Result<(), Fail> {
    for (source, report) in TWICE {
        answers(&rt, rt.alloc(), Case { source, ..PLAIN }, 1, b"", report)?;
    }
    Ok(())
}

#[test]
fn bodies_end_with_a_result(rt: HostRuntime) -> Result<(), Fail> {
    for (source, report) in ENDS {
        answers(&rt, rt.alloc(), Case { source, ..PLAIN }, 1, b"", report)?;
    }
    Ok(())
}
