// Makes the last line, when a stream has ended, of the synchroniser's own figures.
ghost use Rattle.std.specs.Prelude.{◌≡◌};
ghost use Rattle.sync.specs.View.{ValidSynchroniser, view};
ghost use Rattle.texts_rules.specs.Text.{line_of};
ghost use Rattle.recorder_lines.specs.Wants.{last_text};

use lines::{end_line, slips_end_line};
use lines_laying::Wanted;
use sync::Synchroniser;
use texts_rules::Line;

// Makes the line of the frames, the slips and the pending bits.
fn listing_end(sync: Synchroniser) -> Line
    requires { ValidSynchroniser sync }
    ensures { result ≡ line_of (last_text Wanted.Listing (view sync)) }
{
    end_line(sync.frames(), sync.slips(), sync.pending_bits() as u64)
}

// Makes the line of the frames, the slips and the net slip.
fn slips_end(sync: Synchroniser) -> Line
    requires { ValidSynchroniser sync }
    ensures { result ≡ line_of (last_text Wanted.Slips (view sync)) }
{
    slips_end_line(sync.frames(), sync.slips(), sync.net_slip())
}

// kept: a match on `Wanted`, by what may not change: `step`, `last_line` and the promises of the tasks take it from the caller as a value.
// Makes the last line: of a listing `end FRAMES SLIPS PENDING`, of the slips `end FRAMES SLIPS NETSLIP`.
pub fn last_line(wanted: Wanted, sync: Synchroniser) -> Line
    requires { ValidSynchroniser sync }
    ensures { result ≡ line_of (last_text wanted (view sync)) }
{
    match wanted {
        Wanted::Listing => listing_end(sync),
        Wanted::Slips => slips_end(sync),
    }
}
