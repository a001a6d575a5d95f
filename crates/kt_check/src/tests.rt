//! Verdicts on small sources.
use crate::checking::check;
use crate::verdict::Verdict;
use kt_model::finding::{Finding, Rule};
use kt_tree::Span;
use std::test::Fail;

fn refusal(verdict: &Verdict) -> Option<Finding> {
    match verdict {
        Verdict::Accepted(_) => None,
        Verdict::Refused(finding) => Some(*finding),
    }
}

#[test]
fn accepts_what_violates_no_rule(rt: HostRuntime) -> Result<(), Fail> {
    let verdict = check(
        rt.alloc(),
        b"fun main() {\n    val x = 2\n    println(x + 1)\n}\n",
    )?;
    let main = match verdict {
        Verdict::Accepted(it) => Some(it.main),
        Verdict::Refused(_) => None,
    };
    assert_eq!(rt; main, Some(0));
    Ok(())
}

#[test]
fn refuses_by_the_first_finding(rt: HostRuntime) -> Result<(), Fail> {
    let verdict = check(rt.alloc(), b"fun main() { println(x)\nprintln(y) }")?;
    let want = Finding {
        rule: Rule::UnknownName,
        span: Span { start: 21, end: 22 },
    };
    assert_eq!(rt; refusal(&verdict), Some(want));
    Ok(())
}
