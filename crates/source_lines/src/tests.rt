//! Excerpts as they are written, and places there and back.

use crate::{LineColumn, Lines, write_excerpt};
use std::alloc::{AllocError, Global};
use std::test::Fail;

/// The excerpt of a part of a text.
fn excerpt(
    alloc: Global,
    text: &str,
    line: usize,
    start: usize,
    end: usize,
) -> Result<String, AllocError> {
    let mut out = Vec::new(alloc);
    if write_excerpt(&mut out, text, line, start, end).is_err() {
        return Err(AllocError);
    }
    String::from_utf8_lossy(alloc, out.as_slice())
}

#[test]
fn carets_stand_below_the_part(rt: HostRuntime) -> Result<(), Fail> {
    let text = "fn a() {}\r\n\tlet \u{202e}日本 = \"b\";\r\n";
    let found = excerpt(rt.alloc(), text, 2, 19, 25)?;
    assert_eq!(rt; found.as_str(), " 2 |  let ?日本 = \"b\";\n   |       ^^^^\n");
    let found = excerpt(rt.alloc(), text, 12, 36, 100)?;
    assert_eq!(rt; found.as_str(), " 12 | \n    | ^\n");
    Ok(())
}

#[test]
fn places_lead_back_to_bytes(rt: HostRuntime) -> Result<(), Fail> {
    let mut text = String::from_str(rt.alloc(), "a\n")?;
    for _ in 0..600 {
        text.push_str("é")?;
    }
    text.push_str("\n\nb")?;
    let lines = Lines::new(rt.alloc(), text.as_str())?;
    let cases: [(usize, usize, usize); 6] = [
        (0, 1, 1),
        (1, 1, 2),
        (2, 2, 1),
        (1000, 2, 500),
        (1203, 3, 1),
        (1204, 4, 1),
    ];
    for (byte, line, column) in cases {
        let place = lines.place(text.as_str(), byte);
        assert_eq!(rt; place, LineColumn { line, column }, "at {byte}");
        assert_eq!(rt; lines.byte(text.as_str(), place), byte, "at {byte}");
    }
    Ok(())
}
