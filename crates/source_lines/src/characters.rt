//! Characters as a terminal is given them.
ghost use Rattle.std.specs.Prelude.{◌<◌, ◌≤◌, ◌⊎◌, IsFalse};

use unicode_width::UnicodeWidthChar;

/// Whether a character would move the cursor, change the order of what stands around it or write
/// nothing where one expects something.
fn is_hidden(ch: char) -> bool
    ensures control { IsFalse result → 0x20 ≤ ch × (ch < 0x7f ⊎ 0x9f < ch) }
{
    matches!(
        ch,
        '\0'..='\u{1f}'
            | '\u{7f}'..='\u{9f}'
            | '\u{ad}'
            | '\u{61c}'
            | '\u{200b}'..='\u{200f}'
            | '\u{2028}'..='\u{202e}'
            | '\u{2060}'..='\u{206f}'
            | '\u{feff}'
    )
}

/// The character that is shown for one: itself, a space for a tab, so that what stands below it does so
/// however wide tabs are, or `?` for one that must not reach a terminal.
pub fn shown(ch: char) -> char
    ensures no_control { 0x20 ≤ result × (result < 0x7f ⊎ 0x9f < result) }
{
    if ch == '\t' {
        ' '
    } else if is_hidden(ch) {
        '?'
    } else {
        ch
    }
}

/// The columns that a character takes as it is shown.
pub(crate) fn columns(ch: char) -> usize {
    UnicodeWidthChar::width(shown(ch)).unwrap_or(0)
}
