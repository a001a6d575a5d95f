use crate::{SourceFault, read_source};
use kt_model::finding::Rule;
use std::alloc::Global;
use std::test::Fail;

// The rule and the span that a source is refused by, None where it is a file.
fn refusal(alloc: Global, source: &[u8]) -> Result<Option<(Rule, u32, u32)>, Fail> {
    match read_source(alloc, source) {
        Ok(_) => Ok(None),
        Err(SourceFault::Refused(finding)) => {
            Ok(Some((finding.rule, finding.span.start, finding.span.end)))
        }
        Err(SourceFault::NoMemory) => Err(Fail::new("no memory")),
    }
}

#[test]
fn a_source_is_a_file(rt: HostRuntime) -> Result<(), Fail> {
    let alloc = rt.alloc();
    assert_eq!(&rt; refusal(alloc, b"")?, None);
    assert_eq!(&rt; refusal(alloc, b"fun main() { println(1 + 2) }")?, None);
    Ok(())
}

#[test]
fn a_source_is_refused_by_one_rule(rt: HostRuntime) -> Result<(), Fail> {
    let alloc = rt.alloc();
    assert_eq!(&rt;
        refusal(alloc, b"fun\xff main")?,
        Some((Rule::NotUtf8, 3, 3))
    );
    assert_eq!(&rt;
        refusal(alloc, b"fun main() { println(08) }")?,
        Some((Rule::BadToken, 21, 22))
    );
    assert_eq!(&rt;
        refusal(alloc, b"fun main() { if }")?,
        Some((Rule::Syntax, 16, 17))
    );
    assert_eq!(&rt;
        refusal(alloc, b"fun main() { while (true) { } }")?,
        Some((Rule::Syntax, 13, 18))
    );
    Ok(())
}
