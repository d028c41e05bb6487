// Reading the ring of bits: the markers, and what a place shows.
// A place is any number; the ring goes round after 1,155. Each contract speaks of every run of the ring that holds the bits read (`Seen`).
ghost use Rattle.std.specs.Prelude.{◌≡◌, true, ℕ, ◌+◌, ◌<◌, ◌≤◌};
ghost use Rattle.bits.specs.Bit.{Bits};
ghost use Rattle.sync_rules.specs.Ring.{ring, Seen};
ghost use Rattle.sync_rules.specs.Sizes.{search_bits};
ghost use Rattle.sync_rules.specs.Matching.{matches, errors, two_of, shows, locks_at, in_place};
ghost use Rattle.sync_rules.specs.Moves.{moved, move_to};

use sync_rules::MOST_HELD;
use sync_spelling::spelled;

// Whether a marker matches, and how many of its 16 bits are wrong.
#[derive(Clone, Copy)]
pub struct MarkerSeen {
    pub matched: bool,
    pub errors: u32,
}

// Reads the marker of a segment at place `from`. It stays a call: a search seldom comes so far, and its loop is to stay small.
#[inline(never)]
pub fn marker(bits: &[u8; MOST_HELD], from: usize, segment: usize) -> MarkerSeen
    requires fact_1 { Bits bits.now }
    requires fact_2 { segment < 3 }
    ensures ok { Seen bits.now from 16 result.matched (λ xs p. matches xs p segment) }
    ensures errors { Seen bits.now from 16 result.errors (λ xs p. errors xs p segment) }
    ensures few { result.errors ≤ 16 }
{
    let value = spelled(bits, from, 16);
    let expected = coding_markers::markers()[segment];
    MarkerSeen {
        matched: value % 16384 == expected % 16384,
        errors: u16::count_ones(value ^ expected),
    }
}

// Tells whether it matches. Its first four matching bits are read before the others: noise seldom shows them.
pub fn matches_at(bits: &[u8; MOST_HELD], from: usize, segment: usize) -> bool
    requires fact_1 { Bits bits.now }
    requires fact_2 { segment < 3 }
    requires fact_3 { from < 20000 }
    ensures { Seen bits.now from 16 result (λ xs p. matches xs p segment) }
{
    let head = spelled(bits, from + 2, 4);
    let expected = coding_markers::markers()[segment];
    head == expected / 1024 % 16 && marker(bits, from, segment).matched
}

// Tells whether at least two of three hold.
#[tactic(auto, unfolding(sync_rules::specs::Matching::two_of))]
pub fn two_of(a: bool, b: bool, c: bool) -> bool
    ensures { result ≡ two_of a b c }
{
    if a == b { a } else { c }
}

// Tells whether the frame at place `from` shows at least two of its three markers: the third is read where the others differ. It stays a call: written into
// the loop of a search it takes nearly twice as many instructions there.
#[inline(never)]
#[tactic(auto, unfolding(sync_rules::specs::Matching::shows, sync_rules::specs::Matching::two_of))]
pub(crate) fn two_of_three(bits: &[u8; MOST_HELD], from: usize) -> bool
    requires fact_1 { Bits bits.now }
    requires fact_2 { from < 10000 }
    ensures { Seen bits.now from 272 result (λ xs p. shows xs p) }
{
    let first = matches_at(bits, from, 0);
    let second = matches_at(bits, from + 128, 1);
    if first == second {
        first
    } else {
        matches_at(bits, from + 256, 2)
    }
}

// Tells whether three frames 384 bits apart do.
#[tactic(auto, unfolding(sync_rules::specs::Matching::locks_at))]
pub fn three_frames(bits: &[u8; MOST_HELD], from: usize) -> bool
    requires fact_1 { Bits bits.now }
    requires fact_2 { from < 4000 }
    ensures { Seen bits.now from search_bits result (λ xs p. locks_at xs p) }
{
    two_of_three(bits, from) && two_of_three(bits, from + 384) && two_of_three(bits, from + 768)
}

// Tells whether the frame at place `from` shows all three.
#[tactic(auto, unfolding(sync_rules::specs::Matching::in_place))]
pub fn in_place(bits: &[u8; MOST_HELD], from: usize) -> bool
    requires fact_1 { Bits bits.now }
    requires fact_2 { from < 4000 }
    ensures { Seen bits.now from 272 result (λ xs p. in_place xs p) }
{
    matches_at(bits, from, 0) && matches_at(bits, from + 128, 1) && matches_at(bits, from + 256, 2)
}

// Finds where a segment starts, behind the place `base`: at `at`, a symbol later, or a symbol earlier.
pub fn segment_at(bits: &[u8; MOST_HELD], base: usize, at: usize, segment: usize) -> usize
    requires fact_1 { Bits bits.now }
    requires fact_2 { segment < 3 }
    requires fact_3 { base < 4000 }
    requires fact_4 { 2 ≤ at }
    requires fact_5 { at < 4000 }
    ensures by_index { (n : ℕ) → at + 18 ≤ n → result ≡ moved (move_to (ring bits.now base n) at segment) at }
    ensures near { (result ≤ at + 2) × (at ≤ result + 2) }
{
    if matches_at(bits, base + at, segment) {
        at
    } else if matches_at(bits, base + at + 2, segment) {
        at + 2
    } else if matches_at(bits, base + (at - 2), segment) {
        at - 2
    } else {
        at
    }
}
