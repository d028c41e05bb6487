// The last part of a push that was taken: the search where there is no lock, and its frames.
ghost use Rattle.std.specs.Prelude.{◌≤◌, length};
ghost use Rattle.sync_rules.specs.Sizes.{room_size};
ghost use Rattle.bits.specs.Bit.{Bits};
ghost use Rattle.sync_numbers.specs.View.{Steady};
ghost use Rattle.sync_steps.specs.Steps.{SentAfter};

use sync_frames::{Drained, drain};
use sync_numbers::Numbers;
use sync_pushes::search;
use sync_rules::MOST_HELD;

// Goes on once the bits of a push are brought: searches where there is no lock, then sends the frames that are ready.
pub fn sends(
    bits: &[u8; MOST_HELD],
    reliabilities: &[u8; MOST_HELD],
    k: Numbers,
    room: &mut [u8],
) -> Drained
    requires fact_1 { Bits bits.now }
    requires fact_2 { Steady k }
    requires fact_3 { room_size ≤ length room.old }
    ensures { SentAfter bits.now reliabilities.now room.old room.new k result }
{
    drain(bits, reliabilities, search(bits, k), room)
}
