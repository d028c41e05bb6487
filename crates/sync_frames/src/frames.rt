// Frames: when one is ready, its front and segments, and up to three of them a push.
ghost use Rattle.std.specs.Prelude.{◌≡◌, false, [], ◌∷◌, ◌+◌, ◌-◌, ◌*◌, ◌<◌, ◌≤◌, length};
ghost use Rattle.sync_rules.specs.Sizes.{out_of_place_bits, search_bits, slot_size, room_size};
ghost use Rattle.bits.specs.Bit.{Bits};
ghost use Rattle.sync_rules.specs.Ring.{ring};
ghost use Rattle.sync_numbers.specs.View.{Sound, Low, Steady, view_of};
ghost use Rattle.sync_frames.specs.Frames.{Fronted, Sendable, SentBy, Ready, Looked, DrainedBy, drained_of, nothing_of};
ghost use Rattle.sync_rules.specs.Matching.{in_place};
ghost use Rattle.sync_rules.specs.Moves.{Move, moves_at};
ghost use Rattle.sync_rules.specs.Frames.{send_at, send, no_head};
ghost use Rattle.sync_rules.specs.Pushes.{drain};

use sync_numbers::{Numbers, dropped, moves_of, restored, sent, shifted, slipped};
use sync_rings::{in_place, marker, matches_at, segment_at, two_of};
use sync_rooms::{lay_bits, lay_soft};
use sync_rules::{
    Head, IN_PLACE_BITS, MOST_HELD, Moves, OUT_OF_PLACE_BITS, SLOT_SIZE, no_head, no_moves,
};

// What is said of a frame, and the numbers that it leaves.
#[derive(Clone, Copy)]
pub struct Framed {
    pub numbers: Numbers,
    pub head: Head,
}

// The frames that went out, and the numbers that they leave.
// kept: a rule of the project (no heap, fixed memory): the count stands beside one array of the three heads that there can be.
#[derive(Clone, Copy)]
pub struct Drained {
    pub numbers: Numbers,
    pub count: usize,
    pub heads: [Head; 3],
}

// Follows the front of a frame that is not in place: it stays, goes a symbol later, or a symbol back.
fn front(bits: &[u8; MOST_HELD], c: Numbers) -> Numbers
    requires fact_1 { Bits bits.now }
    requires fact_2 { Sound c }
    requires fact_3 { out_of_place_bits ≤ c.pending }
    requires fact_4 { c.figures.later + c.figures.earlier ≤ 3 * c.figures.frames }
    requires fact_5 { Low c }
    ensures { Fronted bits.now c result }
{
    let base = c.first + c.restorable;
    if matches_at(bits, base, 0) {
        c
    } else if matches_at(bits, base + 2, 0) {
        slipped(dropped(c, 2), 1, 0)
    } else if c.restorable == 2 && matches_at(bits, c.first, 0) {
        slipped(restored(c), 0, 1)
    } else {
        c
    }
}

// Sends the frame at the front, its second and third segment p and q behind it, with these moves: writes it into the room and counts it.
fn frame_at(
    bits: &[u8; MOST_HELD],
    reliabilities: &[u8; MOST_HELD],
    c: Numbers,
    room: &mut [u8],
    to: usize,
    p: usize,
    q: usize,
    moves: Moves,
) -> Framed
    requires fact_1 { Bits bits.now }
    requires fact_2 { Sendable c p q }
    requires fact_3 { to + slot_size ≤ length room.old }
    ensures { (v : Move) → moves ≡ moves_at v p q → SentBy bits.now reliabilities.now room.old room.new to c.pending (send_at v (view_of bits.now reliabilities.now c) p q) result }
{
    let base = c.first + c.restorable;
    let first = marker(bits, base, 0);
    let second = marker(bits, base + p, 1);
    let third = marker(bits, base + q, 2);
    let matched = two_of(first.matched, second.matched, third.matched);
    lay_bits(&mut *room, to, bits, base, p, q);
    lay_soft(
        &mut *room,
        to + 48,
        reliabilities,
        base,
        p,
        q,
        c.figures.soft,
    );
    Framed {
        numbers: sent(c, q, matched),
        head: Head {
            offset: c.figures.clock,
            errors: first.errors + second.errors + third.errors,
            matched,
            moves,
        },
    }
}

// Sends one frame, in place or not.
fn frame(
    bits: &[u8; MOST_HELD],
    reliabilities: &[u8; MOST_HELD],
    c: Numbers,
    room: &mut [u8],
    to: usize,
    placed: bool,
) -> Framed
    requires fact_1 { Bits bits.now }
    requires fact_2 { Ready c placed }
    requires fact_3 { placed ≡ in_place (ring bits.now (c.first + c.restorable) c.pending) 0 }
    requires fact_4 { to + slot_size ≤ length room.old }
    ensures { SentBy bits.now reliabilities.now room.old room.new to (c.pending + 2) (send (view_of bits.now reliabilities.now c)) result }
{
    if placed {
        return frame_at(bits, reliabilities, c, room, to, 128, 256, no_moves());
    }
    let d = front(bits, c);
    let base = d.first + d.restorable;
    let p = segment_at(bits, base, 128, 1);
    let q = segment_at(bits, base, p + 128, 2);
    let moves = moves_of(c, d, p, q);
    frame_at(bits, reliabilities, shifted(d, p, q), room, to, p, q, moves)
}

// Tells of the frame at the front whether it is in place, where it is ready.
fn look(bits: &[u8; MOST_HELD], c: Numbers) -> Option<bool>
    requires fact_1 { Bits bits.now }
    requires fact_2 { Steady c }
    ensures { Looked bits.now c result }
{
    if !c.figures.locked || c.pending < IN_PLACE_BITS {
        return None;
    }
    let placed = in_place(bits, c.first + c.restorable);
    if placed || OUT_OF_PLACE_BITS <= c.pending {
        Some(placed)
    } else {
        None
    }
}

// Hands back no frame, and the numbers as they are.
pub fn nothing(numbers: Numbers) -> Drained
    ensures { result ≡ nothing_of numbers }
{
    Drained {
        numbers,
        count: 0,
        heads: [no_head(); 3],
    }
}

// Sends up to three frames, while one is ready. It stays a call: written into the loop of a feed it makes room for its answer at every push.
#[inline(never)]
fn while_ready(
    bits: &[u8; MOST_HELD],
    reliabilities: &[u8; MOST_HELD],
    c: Numbers,
    room: &mut [u8],
) -> Drained
    requires fact_1 { Bits bits.now }
    requires fact_2 { Steady c }
    requires fact_3 { room_size ≤ length room.old }
    requires fact_4 { (c.figures.locked ≡ false → c.pending ≤ search_bits - 1) }
    ensures { DrainedBy bits.now reliabilities.now room.old room.new 0 3 (drain 3 (view_of bits.now reliabilities.now c)) result.numbers result.count result.heads }
{
    let mut drained = nothing(c);
    for slot in 0..3 {
        let Some(placed) = look(bits, drained.numbers) else {
            return drained;
        };
        let to = SLOT_SIZE * slot;
        let framed = frame(bits, reliabilities, drained.numbers, &mut *room, to, placed);
        drained.numbers = framed.numbers;
        drained.heads[slot] = framed.head;
        drained.count += 1;
    }
    drained
}

// Sends up to three frames, while one is ready. Most pushes end before a frame could be.
pub fn drain(
    bits: &[u8; MOST_HELD],
    reliabilities: &[u8; MOST_HELD],
    c: Numbers,
    room: &mut [u8],
) -> Drained
    requires fact_1 { Bits bits.now }
    requires fact_2 { Steady c }
    requires fact_3 { room_size ≤ length room.old }
    requires fact_4 { (c.figures.locked ≡ false → c.pending ≤ search_bits - 1) }
    ensures { DrainedBy bits.now reliabilities.now room.old room.new 0 3 (drain 3 (view_of bits.now reliabilities.now c)) result.numbers result.count result.heads }
{
    if c.figures.locked && IN_PLACE_BITS <= c.pending {
        while_ready(bits, reliabilities, c, room)
    } else {
        nothing(c)
    }
}
