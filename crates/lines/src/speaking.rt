// Makes what `speech` prints of a frame: its payload, or that it is refused.
ghost use Rattle.std.specs.Prelude.{◌≡◌};
ghost use Rattle.bits.specs.Refusals.{number_of};
ghost use Rattle.texts_rules.specs.Text.{line_of};
ghost use Rattle.lines_rules.specs.Text.{speech_text, refused_text};

use crate::listing::refused_line;
use bits::Refusal;
use texts::{Line, Text, hex_of};

// Makes the line of a frame's speech: `speech OFFSET CORRECTED PAYLOAD`, the payload in 40 hexadecimal digits.
pub fn speech_line(offset: u64, corrected: u64, payload: [u8; 20]) -> Line
    ensures { result ≡ line_of (speech_text offset corrected payload) }
{
    Text::new()
        .word(b"speech")
        .number(offset)
        .number(corrected)
        .word(b" ")
        .word(&hex_of(payload))
        .word(b"\n")
        .line()
}

// Makes the line of a frame that is no speech: `refused OFFSET NUMBER`, the refusal's number.
pub fn refused_frame_line(offset: u64, refusal: Refusal) -> Line
    ensures { result ≡ line_of (refused_text offset (number_of refusal)) }
{
    refused_line(offset, u64::from(u8::from(refusal)))
}
