// Writes a frame from two lent rings into the lent room: 48 envelope bytes, and 384 reliabilities once a soft push has been made. A ring has 1,155 places.
// The contracts speak of what stands in a ring from some place on (`sync_rules`, specs/Ring.antt); which places are held the crates above say.

#![tactic(auto)]

ghost use Rattle.std.specs.Prelude.{◌≡◌, cond, [], ◌+◌, ◌<◌, ◌≤◌, length};
ghost use Rattle.std.proofs.lemmas.List.Edits.{sets};
ghost use Rattle.bits.specs.Bit.{Bits};
ghost use Rattle.sync_rules.specs.Ring.{ring, runs};
ghost use Rattle.sync_rules.specs.Room.{bytes_of};

use sync_rules::MOST_HELD;
use sync_spelling::spelled;

// Writes 128 bits as 16 bytes.
fn write_bits(room: &mut [u8], to: usize, bits: &[u8; MOST_HELD], from: usize)
    requires fact_1 { Bits bits.now }
    requires fact_2 { to + 16 ≤ length room.old }
    requires fact_3 { from < 10000 }
    ensures { room.new ≡ sets room.old to (bytes_of 16 (ring bits.now from 128)) }
{
    for i in 0..16 {
        let byte = spelled(bits, from + 8 * i, 8);
        room[to + i] = (byte % 256) as u8;
    }
}

// kept: beside `write_bits`, since one function with a closure for the element is no plainer: the two promise lists of two meanings, in steps of two sizes.
// Writes 128 reliabilities.
fn write_reliabilities(room: &mut [u8], to: usize, reliabilities: &[u8; MOST_HELD], from: usize)
    requires fact_1 { to + 128 ≤ length room.old }
    requires fact_2 { from < 10000 }
    ensures { room.new ≡ sets room.old to (ring reliabilities.now from 128) }
{
    for i in 0..128 {
        room[to + i] = reliabilities[(from + i) % MOST_HELD];
    }
}

// Writes a frame's 48 envelope bytes: its segments stand at `base`, p behind it and q behind it.
pub fn lay_bits(room: &mut [u8], to: usize, bits: &[u8; MOST_HELD], base: usize, p: usize, q: usize)
    requires fact_1 { Bits bits.now }
    requires fact_2 { to + 48 ≤ length room.old }
    requires fact_3 { base < 4000 }
    requires fact_4 { p < 1000 }
    requires fact_5 { q < 1000 }
    ensures { room.new ≡ sets room.old to (bytes_of 48 (runs bits.now base p q)) }
{
    write_bits(&mut *room, to, bits, base);
    write_bits(&mut *room, to + 16, bits, base + p);
    write_bits(&mut *room, to + 32, bits, base + q);
}

// Writes its 384 reliabilities.
fn lay_reliabilities(
    room: &mut [u8],
    to: usize,
    reliabilities: &[u8; MOST_HELD],
    base: usize,
    p: usize,
    q: usize,
)
    requires fact_1 { to + 384 ≤ length room.old }
    requires fact_2 { base < 4000 }
    requires fact_3 { p < 1000 }
    requires fact_4 { q < 1000 }
    ensures { room.new ≡ sets room.old to (runs reliabilities.now base p q) }
{
    write_reliabilities(&mut *room, to, reliabilities, base);
    write_reliabilities(&mut *room, to + 128, reliabilities, base + p);
    write_reliabilities(&mut *room, to + 256, reliabilities, base + q);
}

// Writes them once a soft push has been made, and nothing before.
pub fn lay_soft(
    room: &mut [u8],
    to: usize,
    reliabilities: &[u8; MOST_HELD],
    base: usize,
    p: usize,
    q: usize,
    soft: bool,
)
    requires fact_1 { to + 384 ≤ length room.old }
    requires fact_2 { base < 4000 }
    requires fact_3 { p < 1000 }
    requires fact_4 { q < 1000 }
    ensures { room.new ≡ sets room.old to (cond soft (runs reliabilities.now base p q) []) }
{
    if soft {
        lay_reliabilities(&mut *room, to, reliabilities, base, p, q);
    }
}
