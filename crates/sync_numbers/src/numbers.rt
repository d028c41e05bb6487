// The numbers of a synchroniser, and how passing, restoring, bringing and sending change them. The rings stay where they are:
// the held bits begin at place `first` of the ring, the restorable ones before the pending ones, so that passing bits moves `first` and copies nothing.
ghost use Rattle.std.specs.Prelude.{◌≡◌, true, ◌+◌, ◌^◌, ◌<◌, ◌≤◌};
ghost use Rattle.sync_rules.specs.Figures.{slips_counted};
ghost use Rattle.sync_numbers.specs.View.{Sound, Low, Steady};
ghost use Rattle.sync_numbers.specs.Numbers.{Dropped, Restored, Left, numbers_with, shift_counted};

use super::figures::{frame_sent, shift_counted, slips_counted};
use sync_rules::{MOST_HELD, StreamFigures};

// Everything but the rings: where in them the held bits begin, how many of these are restorable and how many pending, and the figures.
// kept: `Sound`, `Low`, `Steady` and `Few` are clauses and no ghost fields, since these hold at different moments of a push, and by what may not change: `enough`,
// `quiet_of` and `moves_of` ask for none of them.
#[derive(Clone, Copy, Default)]
pub struct Numbers {
    pub first: usize,
    pub restorable: usize,
    pub pending: usize,
    pub figures: StreamFigures,
}

// Passes k pending bits: the last two passed are restorable.
pub fn dropped(c: Numbers, k: usize) -> Numbers
    requires fact_1 { Sound c }
    requires fact_2 { k ≤ c.pending }
    ensures { Dropped c k result }
{
    let passed = c.restorable + k;
    Numbers {
        first: (c.first + passed.saturating_sub(2)) % MOST_HELD,
        restorable: passed.min(2),
        pending: c.pending - k,
        ..c
    }
}

// Makes the restorable bits pending again.
pub fn restored(c: Numbers) -> Numbers
    requires fact_1 { Sound c }
    requires fact_2 { Low c }
    ensures { Restored c result }
{
    Numbers {
        restorable: 0,
        pending: c.pending + c.restorable,
        ..c
    }
}

// Counts slips that were followed.
pub fn slipped(c: Numbers, later: u64, earlier: u64) -> Numbers
    requires fact_1 { c.figures.later + later < 2 ^ 64 }
    requires fact_2 { c.figures.earlier + earlier < 2 ^ 64 }
    ensures { result ≡ numbers_with (slips_counted later earlier c.figures) c }
{
    Numbers {
        figures: slips_counted(c.figures, later, earlier),
        ..c
    }
}

// Counts the shifts of a frame's second and third segment, which start p and q behind its front.
pub fn shifted(c: Numbers, p: usize, q: usize) -> Numbers
    requires fact_1 { c.figures.later < 2 ^ 50 }
    requires fact_2 { c.figures.earlier < 2 ^ 50 }
    requires fact_3 { p < 1000 }
    ensures { result ≡ numbers_with (shift_counted q (p + 128) (shift_counted p 128 c.figures)) c }
{
    let second = shift_counted(c.figures, p, 128);
    Numbers {
        figures: shift_counted(second, q, p + 128),
        ..c
    }
}

// Gives the numbers that a frame leaves whose third segment starts q behind its front: its bits are passed, and it is counted.
pub fn sent(c: Numbers, q: usize, matched: bool) -> Numbers
    requires fact_1 { Sound c }
    requires fact_2 { 252 ≤ q }
    requires fact_3 { q + 128 ≤ c.pending }
    requires fact_4 { c.figures.failures ≤ 2 }
    requires fact_5 { c.figures.locked ≡ true }
    ensures { Left c q matched result }
{
    Numbers {
        figures: frame_sent(c.figures, matched),
        ..dropped(c, q + 128)
    }
}
