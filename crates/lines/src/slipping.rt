// Makes what `slips` prints.
ghost use Rattle.std.specs.Prelude.{◌≡◌};
ghost use Rattle.texts_rules.specs.Text.{line_of};
ghost use Rattle.lines_rules.specs.Slips.{has_move, slip_line};
ghost use Rattle.lines_rules.specs.Text.{slip_text, slips_end_text};

use crate::listing::end_words;
use sync_rules::{Head, Moves};
use texts::{Line, Text};

// Makes the line of a frame's moves in bits, of its front, its second and its third segment: `slip OFFSET FRONT SECOND THIRD`.
pub fn slip_line(offset: u64, front: i64, second: i64, third: i64) -> Line
    ensures { result ≡ line_of (slip_text offset front second third) }
{
    Text::new()
        .word(b"slip")
        .number(offset)
        .signed(front)
        .signed(second)
        .signed(third)
        .word(b"\n")
        .line()
}

// Makes the last line: `end FRAMES SLIPS NETSLIP`, the net slip in bits and with its sign.
pub fn slips_end_line(frames: u64, slips: u64, net: i64) -> Line
    ensures { result ≡ line_of (slips_end_text frames slips net) }
{
    end_words(frames, slips).signed(net).word(b"\n").line()
}

// Tells whether one of a frame's three moves is not zero.
fn has_move(moves: Moves) -> bool
    ensures { result ≡ has_move moves }
{
    moves.front != 0 || moves.second != 0 || moves.third != 0
}

// Makes the line of a frame with a move; for any other an empty line, which prints nothing.
pub fn slip_of(head: Head) -> Line
    ensures { result ≡ slip_line head }
{
    let moves = head.moves;
    if has_move(moves) {
        return slip_line(
            head.offset,
            i64::from(moves.front),
            i64::from(moves.second),
            i64::from(moves.third),
        );
    }
    Text::new().line()
}
