// The parts of a push that was taken, before its frames, for the crates `sync_steps` and `sync`: its two bits are brought into the lent rings, and where
// there is no lock the place of three frames is searched. Steps.antt says what each part promises; what rings and numbers stand for is in the crate
// `sync_numbers`.

#![tactic(auto)]

ghost use Rattle.std.specs.Prelude.{◌≡◌, true, false, List, ℕ, ◌+◌, ◌-◌, ◌*◌, ◌/◌, ◌%◌, ◌<◌, ◌≤◌, length, set, unwrap_or, IfSome};
ghost use Rattle.sync_rules.specs.Sizes.{search_bits, most_held, most_dibits};
ghost use Rattle.bits.specs.Bit.{Bits};
ghost use Rattle.sync_rules.specs.Ring.{ring};
ghost use Rattle.sync_numbers.specs.View.{Sound, Low, Steady, Rings, view_of};
ghost use Rattle.sync_pushes.specs.Steps.{appended_to, Brought, Searched, Waiting};
ghost use Rattle.sync_inputs.specs.Inputs.{input_of};
ghost use Rattle.sync_rules.specs.Matching.{first_of, locks_at};
ghost use Rattle.sync_rules.specs.Pushes.{quiet};

use sync_counts::{bits_passed, dibit_taken};
use sync_inputs::Given;
use sync_numbers::{Numbers, dropped};
use sync_rings::three_frames;
use sync_rules::{IN_PLACE_BITS, MOST_HELD, SEARCH_BITS};

// No more bits can be pending with nothing to do: with a lock, and without one.
const LOCKED_IDLE: usize = IN_PLACE_BITS - 1;

const SEARCHING_IDLE: usize = SEARCH_BITS - 1;

// Counts the two bits of a push, soft or not, as pending.
pub fn appended(c: Numbers, soft: bool) -> Numbers
    requires fact_1 { Steady c }
    requires fact_2 { c.pending ≤ search_bits - 1 }
    requires fact_3 { c.figures.taken < most_dibits }
    ensures { result ≡ appended_to c soft }
{
    Numbers {
        pending: c.pending + 2,
        figures: dibit_taken(c.figures, soft),
        ..c
    }
}

// Finds the first of `tries` places from `base` on where three frames show themselves.
fn find(bits: &[u8; MOST_HELD], base: usize, tries: usize) -> Option<usize>
    requires fact_1 { Bits bits.now }
    requires fact_2 { base < 2000 }
    requires fact_3 { tries < 2000 }
    ensures by_index { (n : ℕ) → ((p : ℕ) → p < tries → p + search_bits ≤ n) → unwrap_or result tries ≡ first_of (locks_at (ring bits.now base n)) 0 tries }
    ensures few { IfSome result (λ p. p < tries) }
{
    for place in 0..tries {
        if three_frames(bits, base + place) {
            return Some(place);
        }
    }
    None
}

// Searches where there is no lock: passes the bits up to the first place where three frames show themselves.
pub fn search(bits: &[u8; MOST_HELD], c: Numbers) -> Numbers
    requires fact_1 { Bits bits.now }
    requires fact_2 { Sound c }
    requires fact_3 { Low c }
    requires fact_4 { (c.figures.locked ≡ true → c.figures.failures ≤ 2) }
    ensures { Searched bits.now c result }
{
    if c.figures.locked {
        return c;
    }
    let tries = c.pending.saturating_sub(SEARCHING_IDLE);
    let found = find(bits, c.first + c.restorable, tries);
    let passed = found.unwrap_or(tries);
    Numbers {
        figures: bits_passed(c.figures, passed as u64, found.is_some()),
        ..dropped(c, passed)
    }
}

// Gives a place of the ring, round its end.
fn in_ring(place: usize) -> usize
    requires { place < 2 * most_held }
    ensures { result ≡ place % most_held }
{
    if place < MOST_HELD {
        place
    } else {
        place - MOST_HELD
    }
}

// Puts two values behind the held ones, which end before place `end`.
pub fn put(ring: &mut [u8; MOST_HELD], end: usize, first: u8, second: u8)
    requires fact_1 { length ring.old ≡ most_held }
    requires fact_2 { end < 2 * most_held - 1 }
    ensures { ring.new ≡ set (set ring.old (end % most_held) first) ((end + 1) % most_held) second }
{
    let p = in_ring(end);
    let q = in_ring(end + 1);
    ring[p] = first;
    ring[q] = second;
}

// Brings the bits of a push and their reliabilities into the rings.
pub fn brought(
    bits: &mut [u8; MOST_HELD],
    reliabilities: &mut [u8; MOST_HELD],
    k: Numbers,
    x: Given,
) -> Numbers
    requires fact_1 { Steady k }
    requires fact_2 { (k.pending ≤ search_bits - 1) × (k.figures.taken < most_dibits) }
    requires fact_3 { Rings bits.old reliabilities.old }
    requires fact_4 { x.dibit < 4 }
    ensures { Brought bits.old reliabilities.old bits.new reliabilities.new k (input_of x) result }
{
    let end = k.first + (k.restorable + k.pending);
    put(&mut *bits, end, x.dibit / 2, x.dibit % 2);
    put(&mut *reliabilities, end, x.first, x.second);
    appended(k, x.soft)
}

// Tells whether bits enough are pending for a frame, or without a lock for a search. After most pushes they are not.
pub fn enough(k: Numbers) -> bool
    ensures { result ≡ false → Waiting k }
{
    let wanted = if k.figures.locked {
        IN_PLACE_BITS
    } else {
        SEARCH_BITS
    };
    wanted <= k.pending
}

// Tells how many pushes can follow of which none searches or sends, whatever stands in the rings.
pub fn quiet_of(k: Numbers) -> usize
    ensures { (bits reliabilities : List ℕ) → result ≡ quiet (view_of bits reliabilities k) }
{
    let idle = if k.figures.locked {
        LOCKED_IDLE
    } else {
        SEARCHING_IDLE
    };
    idle.saturating_sub(k.pending) / 2
}
