// Holds offsets against what was released last.
ghost use Rattle.std.specs.Prelude.{◌≡◌, ◌≤◌};
ghost use Rattle.bits.specs.Sizes.{most_offset};
ghost use Rattle.merger_rules.specs.Merging.{is_late, snapped, is_after};
ghost use Rattle.merger_rules.specs.States.{Marked};

use bits::FRAME_BITS;

// So far, sixteen frames, an offset lies on the grid of what was released last.
const GRID_BITS: u64 = 16 * FRAME_BITS;

// Tells whether a frame comes too late after what was released last.
pub fn late(last: Option<u64>, offset: u64) -> bool
    requires fact_1 { Marked last }
    requires fact_2 { offset ≤ most_offset }
    ensures { result ≡ is_late last offset }
{
    last.is_some_and(|r| offset + 191 < r + FRAME_BITS)
}

// Gives the offset on the grid of what was released last.
pub fn snap(last: Option<u64>, offset: u64) -> u64
    requires fact_1 { Marked last }
    requires fact_2 { offset ≤ most_offset }
    ensures { result ≡ snapped last offset }
{
    match last {
        Some(l) if l < offset && offset - l < GRID_BITS => {
            l + ((offset - l + 192) / FRAME_BITS).max(1) * FRAME_BITS
        }
        _ => offset,
    }
}

// Tells whether an offset lies after what was released last.
pub fn after(last: Option<u64>, offset: u64) -> bool
    ensures { result ≡ is_after last offset }
{
    last.is_none_or(|l| l < offset)
}
