// Makes what `listing` prints, and the line of what is refused.
ghost use Rattle.std.specs.Prelude.{◌≡◌, ◌≤◌, length};
ghost use Rattle.texts_rules.specs.Text.{line_of};
ghost use Rattle.lines_rules.specs.Text.{frame_words, frame_text, gap_text, end_words, end_text, refused_text};

use texts::{Line, Text};

// Gives a frame's offset, whether it matched, and its errors as a text, which is not ended yet: `show` puts the outcome behind them.
pub fn frame_words(offset: u64, matched: bool, errors: u64) -> Text
    ensures size { length result ≤ 68 }
    ensures text { result ≡ frame_words offset matched errors }
{
    Text::new()
        .word(b"frame")
        .number(offset)
        .number(u64::from(matched))
        .number(errors)
}

// Makes the line of a frame: `frame OFFSET MATCHED ERRORS`.
pub fn frame_line(offset: u64, matched: bool, errors: u64) -> Line
    ensures { result ≡ line_of (frame_text offset matched errors) }
{
    frame_words(offset, matched, errors).word(b"\n").line()
}

// Makes the line of a gap: `gap OFFSET LENGTH`.
pub fn gap_line(offset: u64, length: u64) -> Line
    ensures { result ≡ line_of (gap_text offset «length») }
{
    Text::new()
        .word(b"gap")
        .number(offset)
        .number(length)
        .word(b"\n")
        .line()
}

// Gives `end` and the last line's first two counts as a text, which is not ended yet: the third count may have a sign.
pub(crate) fn end_words(a: u64, b: u64) -> Text
    ensures size { length result ≤ 45 }
    ensures text { result ≡ end_words a b }
{
    Text::new().word(b"end").number(a).number(b)
}

// Makes the last line: `end` and three counts.
pub fn end_line(a: u64, b: u64, c: u64) -> Line
    ensures { result ≡ line_of (end_text a b c) }
{
    end_words(a, b).number(c).word(b"\n").line()
}

// kept: beside `gap_line`, since a function over the word is no plainer than the chain: it would need the word in its promise, and the definitions name each line.
// Makes the line of what is refused: `refused` and two numbers, the refusal's and the record's, or a frame's offset and the refusal's.
pub fn refused_line(first: u64, second: u64) -> Line
    ensures { result ≡ line_of (refused_text first second) }
{
    Text::new()
        .word(b"refused")
        .number(first)
        .number(second)
        .word(b"\n")
        .line()
}
