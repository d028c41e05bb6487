// What a frame changes in the figures of a synchroniser: slips followed, frames sent. The definitions of the same names are in Figures.antt of the crate
// `sync_rules`. Other changes of the figures are in the crate `sync_counts`.
ghost use Rattle.std.specs.Prelude.{◌≡◌, true, cond, ◌+◌, ◌^◌, ◌<◌, ◌≤◌, ltb};
ghost use Rattle.sync_rules.specs.Figures.{slips_counted, frame_sent};
ghost use Rattle.sync_numbers.specs.Numbers.{shift_counted};

use bits::FRAME_BITS;
use sync_rules::StreamFigures;

// Counts slips that were followed: so many more to a later symbol and to an earlier one.
pub fn slips_counted(figures: StreamFigures, later: u64, earlier: u64) -> StreamFigures
    requires { (figures.later + later < 2 ^ 64) × (figures.earlier + earlier < 2 ^ 64) }
    ensures { result ≡ slips_counted later earlier figures }
{
    StreamFigures {
        later: figures.later + later,
        earlier: figures.earlier + earlier,
        ..figures
    }
}

// Counts the shift of a segment that starts at a place and is due at another.
pub fn shift_counted(figures: StreamFigures, at: usize, due: usize) -> StreamFigures
    requires fact_1 { figures.later + 1 < 2 ^ 64 }
    requires fact_2 { figures.earlier + 1 < 2 ^ 64 }
    ensures value { result ≡ shift_counted at due figures }
    ensures few { (result.later ≤ figures.later + 1) × (result.earlier ≤ figures.earlier + 1) }
{
    slips_counted(figures, u64::from(due < at), u64::from(at < due))
}

// Counts a frame, matched or not: lock ends with the third in a row that is not matched.
pub fn frame_sent(figures: StreamFigures, matched: bool) -> StreamFigures
    requires fact_1 { figures.clock < 2 ^ 62 }
    requires fact_2 { figures.frames < 2 ^ 62 }
    requires fact_3 { figures.synchronised ≤ figures.frames }
    requires fact_4 { figures.failures ≤ 2 }
    requires fact_5 { figures.locked ≡ true }
    ensures { result ≡ frame_sent matched figures }
{
    let failures = if matched { 0 } else { figures.failures + 1 };
    StreamFigures {
        clock: figures.clock + FRAME_BITS,
        frames: figures.frames + 1,
        synchronised: figures.synchronised + u64::from(matched),
        failures,
        locked: failures < 3,
        ..figures
    }
}
