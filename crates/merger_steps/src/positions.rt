// Works on one position: its two places, whether it is ready, whose frame is chosen, which numbers it holds.
ghost use Rattle.std.specs.Prelude.{◌≡◌, ◌≤◌};
ghost use Rattle.bits.specs.Sizes.{most_offset};
ghost use Rattle.merger_rules.specs.Merging.{taken, filled, alone, passed, is_ready, choice_of, free_of, freed_of};

use merger_rules::{Chosen, Freed, Held, Position};

// kept: the stream is a number here, by what may not change: `taken`, `filled` and `alone` say what every number gives, and these calls answer for each.
// Tells whether the stream's place holds a frame.
pub fn is_taken(p: Position, stream: usize) -> bool
    ensures { result ≡ taken stream p }
{
    if stream == 0 {
        p.primary.is_some()
    } else {
        p.alternate.is_some()
    }
}

// Gives the position with a frame in the stream's place.
pub fn with_frame(p: Position, stream: usize, h: Held) -> Position
    ensures { result ≡ filled stream h p }
{
    if stream == 0 {
        Position {
            primary: Some(h),
            ..p
        }
    } else {
        Position {
            alternate: Some(h),
            ..p
        }
    }
}

// Opens a position, whose key is the frame's offset.
pub fn opened(stream: usize, h: Held) -> Position
    ensures { result ≡ alone stream h }
{
    let empty = Position {
        key: h.figures.offset,
        primary: None,
        alternate: None,
    };
    with_frame(empty, stream, h)
}

// Tells whether a stream has delivered a position or moved past it.
fn is_passed(place: Option<Held>, settled: Option<u64>, key: u64) -> bool
    requires { key ≤ most_offset }
    ensures { result ≡ passed settled key place }
{
    place.is_some() || settled.is_none_or(|s| key + 191 < s)
}

// Tells whether both streams have, or it is a flush.
pub fn ready(p: Position, primary: Option<u64>, alternate: Option<u64>, flush: bool) -> bool
    requires { p.key ≤ most_offset }
    ensures { result ≡ is_ready primary alternate flush p }
{
    flush || (is_passed(p.primary, primary, p.key) && is_passed(p.alternate, alternate, p.key))
}

// Chooses the primary's frame, unless only the alternate's passes the check.
pub fn choose(p: Position) -> Option<Chosen>
    ensures { result ≡ choice_of p }
{
    match (p.primary, p.alternate) {
        (Some(first), Some(second)) if second.check && !first.check => Some(Chosen {
            frame: second,
            alternate: true,
        }),
        (Some(frame), _) => Some(Chosen {
            frame,
            alternate: false,
        }),
        (None, other) => other.map(|frame| Chosen {
            frame,
            alternate: true,
        }),
    }
}

// Gives the number that a place gives back.
fn free(place: Option<Held>) -> Option<u64>
    ensures { result ≡ free_of place }
{
    place.map(|h| h.number)
}

// Gives the numbers that a position gives back when it is taken out.
pub fn freed(p: Position) -> Freed
    ensures { result ≡ freed_of p }
{
    Freed {
        primary: free(p.primary),
        alternate: free(p.alternate),
    }
}
