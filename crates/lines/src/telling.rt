// Makes what goes to standard error: a refusal by its number, and how many frames of two merged recordings are not in the journal.
ghost use Rattle.std.specs.Prelude.{◌≡◌};
ghost use Rattle.bits.specs.Refusals.{number_of};
ghost use Rattle.texts_rules.specs.Text.{line_of};
ghost use Rattle.lines_rules.specs.Text.{refusal_text, left_out_text};

use bits::Refusal;
use texts::{Line, Text};

// Makes the line of a refusal: `refused NUMBER`.
pub fn refusal_line(refusal: Refusal) -> Line
    ensures { result ≡ line_of (refusal_text (number_of refusal)) }
{
    Text::new()
        .word(b"refused")
        .number(u64::from(u8::from(refusal)))
        .word(b"\n")
        .line()
}

// Makes the line that says how many frames came late, found their place taken, were passed over, or were refused: `late N double N passed over N refused N`.
pub fn left_out_line(late: u64, double: u64, passed: u64, refused: u64) -> Line
    ensures { result ≡ line_of (left_out_text late double passed refused) }
{
    Text::new()
        .word(b"late")
        .number(late)
        .word(b" double")
        .number(double)
        .word(b" passed over")
        .number(passed)
        .word(b" refused")
        .number(refused)
        .word(b"\n")
        .line()
}
