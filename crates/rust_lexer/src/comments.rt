//! Comments: where they end, which are attributes, and the text of those.
#![tactic(auto, using(std::proofs::lemmas::Str::lead_after_ascii))]

ghost use Rattle.std.specs.Prelude.{◌<◌, ◌≤◌, ◌+◌, length, IfOk};
ghost use Rattle.std.specs.Str.{IsUtf8, IsCharBoundary};

use crate::chars::byte_at;
use crate::fault::LexFault;

/// What a comment is to the code.
#[derive(Clone, Copy, PartialEq, Eq)]
pub(crate) enum Comment {
    Plain,
    /// An attribute of what follows.
    Outer,
    /// An attribute of what it stands in.
    Inner,
}

/// What the comment is that begins with `//` here.
pub(crate) fn line_comment(text: &[u8], at: usize) -> Comment
    requires { at < length text.now }
{
    match byte_at(text, at.saturating_add(2)) {
        b'!' => Comment::Inner,
        b'/' if byte_at(text, at.saturating_add(3)) != b'/' => Comment::Outer,
        _ => Comment::Plain,
    }
}

/// What the comment is that begins with `/*` here.
pub(crate) fn block_comment(text: &[u8], at: usize) -> Comment
    requires { at < length text.now }
{
    let fourth = byte_at(text, at.saturating_add(3));
    match byte_at(text, at.saturating_add(2)) {
        b'!' => Comment::Inner,
        b'*' if fourth != b'*' && fourth != b'/' => Comment::Outer,
        _ => Comment::Plain,
    }
}

/// The offset of the end of the line.
pub(crate) fn line_end(text: &[u8], from: usize) -> usize
    requires { from ≤ length text.now }
    ensures forward { from ≤ result }
    ensures between { IsCharBoundary text.now result }
{
    for at in from..text.len() {
        if text[at] == b'\n' {
            return at;
        }
    }
    text.len()
}

/// The offset after a comment whose `/*` has been passed.
pub(crate) fn comment_end(text: &[u8], from: usize) -> Result<usize, LexFault>
    requires { IsUtf8 text.now }
    ensures forward { IfOk result (λ r. from < r) }
    ensures between { IfOk result (λ r. IsCharBoundary text.now r) }
{
    // The comments within that are open.
    let mut depth = 0usize;
    // The last byte, where it is no part of a mark.
    let mut last = 0;
    for at in from..text.len() {
        let byte = text[at];
        if last == b'*' && byte == b'/' {
            last = 0;
            match depth.checked_sub(1) {
                Some(outer) => depth = outer,
                None => return Ok(at + 1),
            }
        } else if last == b'/' && byte == b'*' {
            last = 0;
            depth = depth.saturating_add(1);
        } else {
            last = byte;
        }
    }
    Err(LexFault::UnclosedComment)
}

/// Whether a carriage return without a line feed stands between two offsets.
pub(crate) fn has_bare_return(text: &[u8], from: usize, end: usize) -> bool
    requires { end ≤ length text.now }
{
    for at in from..end {
        if text[at] == b'\r' && byte_at(text, at + 1) != b'\n' {
            return true;
        }
    }
    false
}

/// The offset at which the text of a comment begins, which is an attribute.
pub(crate) fn doc_begin(text: &[u8], at: usize, end: usize) -> usize
    requires utf8 { IsUtf8 text.now }
    requires order { at ≤ end }
    requires end { IsCharBoundary text.now end }
    ensures after { at ≤ result }
    ensures before { result ≤ end }
    ensures between { IsCharBoundary text.now result }
{
    // `///`, `//!`, `/**` and `/*!` have three bytes.
    let third = at.saturating_add(2);
    if third < end && text[third] < 0x80 {
        third + 1
    } else {
        end
    }
}

/// The offset at which the text ends that begins here, of a comment that ends there.
pub(crate) fn doc_end(text: &[u8], begin: usize, end: usize, is_block: bool) -> usize
    requires order { begin ≤ end }
    requires end { IsCharBoundary text.now end }
    ensures after { begin ≤ result }
    ensures before { result ≤ end }
    ensures between { IsCharBoundary text.now result }
{
    if is_block && end - begin >= 2 && text[end - 2] == b'*' {
        return end - 2;
    }
    if !is_block && end > begin && text[end - 1] == b'\r' {
        return end - 1;
    }
    end
}
