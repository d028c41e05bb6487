// The rule for the gaps between frames, which is defined in crate `journal_rules`. Crate `journal` passes it on; a listing, which needs nothing else of the
// journal, names this crate.

#![tactic(auto)]

ghost use Rattle.std.specs.Prelude.{◌≡◌};
ghost use Rattle.journal_rules.specs.Gaps.{gap_to};

use bits::FRAME_BITS;
use journal_rules::{Body, Entry};

// Gives the gap to write before a frame at the offset `next`: none where there is no frame before it, or where that one ends there or later.
pub fn gap_to(earlier: Option<u64>, next: u64) -> Option<Entry>
    ensures { result ≡ gap_to earlier next }
{
    let end = earlier?.checked_add(FRAME_BITS)?;
    if next <= end {
        return None;
    }
    Some(Entry {
        offset: end,
        body: Body::Gap(next - end),
    })
}
