// Puts a frame that is neither refused nor late into the position that it belongs to, or into a new one.
ghost use Rattle.std.specs.Prelude.{◌≡◌, ◌≤◌, ◌<◌, take, get_or};
ghost use Rattle.bits.specs.Sizes.{most_offset};
ghost use Rattle.merger_rules.specs.Merging.{no_position, join_of, open_of, put_of};
ghost use Rattle.merger.specs.States.{view_of, ValidMerger, PushGave};
ghost use Rattle.merger_rules.specs.States.{IsNear, Nowhere, below_of};

use crate::{AfterPush, Held, Keeping, Merger};
use bits::Refusal;
use merger_steps::{below, is_taken, opened, with_frame, with_position};

// Puts the frame into the position at a place, if its stream's place there is free.
pub(crate) fn join(m: Merger, at: usize, stream: usize, h: Held) -> AfterPush
    requires fact_1 { ValidMerger m }
    requires fact_2 { at < m.n }
    requires fact_3 { IsNear h.figures.offset (get_or m.positions at no_position).key }
    requires fact_4 { h.figures.offset ≤ most_offset }
    ensures { PushGave m (join_of stream h (view_of m) at) result }
{
    let before = m.positions[at];
    if is_taken(before, stream) {
        return AfterPush {
            answer: Ok(Keeping::Double),
            merger: m,
        };
    }
    let filled = with_frame(before, stream, h);
    let mut merger = m;
    merger.positions[at] = filled;
    AfterPush {
        answer: Ok(Keeping::Kept),
        merger,
    }
}

// Opens a position for a frame that belongs to none, at its place in the order.
pub(crate) fn open(m: Merger, at: usize, stream: usize, h: Held) -> AfterPush
    requires fact_1 { ValidMerger m }
    requires fact_2 { at ≡ below_of h.figures.offset (take m.n m.positions) }
    requires fact_3 { Nowhere h.figures.offset (take m.n m.positions) }
    requires fact_4 { at ≤ m.n }
    requires fact_5 { h.figures.offset ≤ most_offset }
    ensures { PushGave m (open_of stream h (view_of m) at) result }
{
    if 16 <= m.n {
        return AfterPush {
            answer: Err(Refusal::Positions),
            merger: m,
        };
    }
    AfterPush {
        answer: Ok(Keeping::Kept),
        merger: Merger {
            n: m.n + 1,
            positions: with_position(m.positions, m.n, at, opened(stream, h)),
            ..m
        },
    }
}

// One search serves for both: the first position that does not lie below the frame is its own, or the one that a new position goes before.
pub(crate) fn put(m: Merger, stream: usize, h: Held) -> AfterPush
    requires fact_1 { ValidMerger m }
    requires fact_2 { h.figures.offset ≤ most_offset }
    ensures { PushGave m (put_of stream h (view_of m)) result }
{
    let at = below(m.positions, m.n, h.figures.offset);
    if at < m.n && m.positions[at].key <= h.figures.offset + 191 {
        join(m, at, stream, h)
    } else {
        open(m, at, stream, h)
    }
}
