//! The report of a refused source. It stands above the rules and their findings, and below the program. Its one public contract is that
//! of `report`: exactly the text that the definition gives for the source and its first finding.
#![tactic(auto)]

ghost use Rattle.std.specs.Prelude.{◌≡◌, ◌<◌, ◌++◌, take, drop, codes, IfOk, OnOk};
ghost use Rattle.kt_report.specs.Report as spec;

use itoa::Buffer;
use kt_model::finding::Finding;
use kt_tree::NoMemory;
use std::alloc::Global;

/// U+FEFF in UTF-8.
const MARK: [u8; 3] = [0xEF, 0xBB, 0xBF];

/// A place in a source: its line and its column in characters, both from 1.
#[derive(Clone, Copy)]
struct Place {
    line: usize,
    column: usize,
}

/// The report of a source whose first finding is this: its places, its rule's code and text, and a last line that says how many findings
/// are reported. A line ends behind LF, CR LF or a CR alone; a column counts characters of UTF-8; a U+FEFF at the start is not counted. A place past the
/// end of the source counts as the end. `NoMemory` where there is none for the text.
pub fn report(alloc: Global, source: &[u8], finding: &Finding) -> Result<Vec<u8>, NoMemory>
    ensures { IfOk result (λ text. text.items ≡ spec.report_of source.now finding.now) }
{
    let start = line_col(source, finding.span.start);
    let end = line_col(source, finding.span.end);
    let mut text = Vec::new(alloc);
    push_place(&mut text, start)?;
    text.extend_from_slice(b"-")?;
    push_place(&mut text, end)?;
    text.extend_from_slice(b" ")?;
    text.extend_from_slice(finding.rule.code().as_bytes())?;
    text.extend_from_slice(b" ")?;
    text.extend_from_slice(finding.rule.text().as_bytes())?;
    text.extend_from_slice(b"\nrefused findings=1\n")?;
    Ok(text)
}

/// Puts a place behind the text. `NoMemory` where there is none for that.
fn push_place(text: &mut Vec<u8>, place: Place) -> Result<(), NoMemory>
    ensures { OnOk result (text.new.items ≡ text.old.items ++ spec.place_text (place.line, place.column)) }
{
    let mut digits = Buffer::new();
    text.extend_from_slice(digits.format(place.line).as_bytes())?;
    text.extend_from_slice(b":")?;
    text.extend_from_slice(digits.format(place.column).as_bytes())?;
    Ok(())
}

/// The line and the column of a place in bytes.
fn line_col(source: &[u8], at: u32) -> Place
    ensures { (result.line, result.column) ≡ spec.line_col source.now at }
{
    place_behind(without_mark(front(source, at)), rest(source, at))
}

/// The source before a place in bytes.
fn front(source: &[u8], at: u32) -> &[u8]
    ensures { result.now ≡ take at source.now }
{
    let at = (at as usize).min(source.len());
    &source[..at]
}

/// The source from a place in bytes on.
fn rest(source: &[u8], at: u32) -> &[u8]
    ensures { result.now ≡ drop at source.now }
{
    let at = (at as usize).min(source.len());
    &source[at..]
}

/// The source without one U+FEFF at its start.
fn without_mark(source: &[u8]) -> &[u8]
    ensures { result.now ≡ spec.without_mark source.now }
{
    if source.starts_with(&MARK) {
        &source[3..]
    } else {
        source
    }
}

/// The place just behind the front, before the rest.
fn place_behind(front: &[u8], rest: &[u8]) -> Place
    ensures { (result.line, result.column) ≡ spec.place_behind 1 1 front.now rest.now }
{
    let mut left = front;
    let mut place = Place { line: 1, column: 1 };
    'bytes: while let Some((byte, behind)) = left.split_first() {
        place = next_place(place, *byte, first_of(behind, rest));
        left = behind;
    }
    place
}

/// The first byte of the two, or 0.
fn first_of(front: &[u8], rest: &[u8]) -> u8
    ensures { result ≡ spec.first (front.now ++ rest.now) }
{
    match front.first() {
        Some(byte) => *byte,
        None => rest.first().copied().unwrap_or(0),
    }
}

/// The place behind a byte that this one follows.
fn next_place(place: Place, byte: u8, next: u8) -> Place
    requires line { place.line < 18446744073709551615 }
    requires column { place.column < 18446744073709551615 }
    ensures { (result.line, result.column) ≡ spec.next_place place.line place.column byte next }
{
    if byte == b'\n' || (byte == b'\r' && next != b'\n') {
        Place {
            line: place.line + 1,
            column: 1,
        }
    } else if byte < 128 || 191 < byte {
        Place {
            line: place.line,
            column: place.column + 1,
        }
    } else {
        place
    }
}

#[cfg(test)]
mod tests {
    use super::*;
    use kt_model::finding::Rule;
    use kt_tree::Span;
    use std::test::Fail;

    const TWICE: &[u8] = b"fun main() {\n    val x: Int\n    x = 2\n    x = 3\n}\n";

    #[test]
    fn names_the_finding_and_its_places(rt: HostRuntime) -> Result<(), Fail> {
        let twice = finding(Rule::ValTwice, 42, 43);
        let text = report(rt.alloc(), TWICE, &twice)?;
        assert_eq!(rt;
            text.as_slice(),
            b"4:5-4:6 VAL_TWICE val may be assigned twice\nrefused findings=1\n".as_slice()
        );
        let unknown = finding(Rule::UnknownName, 21, 22);
        let text = report(rt.alloc(), b"fun main() { println(y) }", &unknown)?;
        assert_eq!(rt;
            text.as_slice(),
            b"1:22-1:23 UNKNOWN_NAME unknown name\nrefused findings=1\n".as_slice()
        );
        Ok(())
    }

    #[test]
    fn counts_lines_and_characters(rt: HostRuntime) -> Result<(), Fail> {
        let cases: [(&[u8], u32, &[u8]); 6] = [
            (
                b"a\r\nb",
                3,
                b"2:1-2:2 SYNTAX unexpected token\nrefused findings=1\n",
            ),
            (
                b"a\rb",
                2,
                b"2:1-2:2 SYNTAX unexpected token\nrefused findings=1\n",
            ),
            (
                b"\xEF\xBB\xBFb",
                3,
                b"1:1-1:2 SYNTAX unexpected token\nrefused findings=1\n",
            ),
            (
                b"\xC3\xA4b",
                2,
                b"1:2-1:3 SYNTAX unexpected token\nrefused findings=1\n",
            ),
            (
                b"\n\xEF\xBB\xBFb",
                4,
                b"2:2-2:3 SYNTAX unexpected token\nrefused findings=1\n",
            ),
            (
                b"b",
                0,
                b"1:1-1:2 SYNTAX unexpected token\nrefused findings=1\n",
            ),
        ];
        for (source, start, line) in &cases {
            let text = report(
                rt.alloc(),
                source,
                &finding(Rule::Syntax, *start, *start + 1),
            )?;
            assert_eq!(rt; text.as_slice(), *line);
        }
        Ok(())
    }

    fn finding(rule: Rule, start: u32, end: u32) -> Finding {
        Finding {
            rule,
            span: Span { start, end },
        }
    }
}
