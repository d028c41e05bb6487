// Reads a number in a lent ring of bits, for the crates `sync_rings`, which reads markers, and `sync_rooms`, which writes envelopes. A place is any number; the
// ring goes round after 1,155.

#![tactic(auto)]

ghost use Rattle.std.specs.Prelude.{◌≡◌, ◌≤◌};
ghost use Rattle.bits.specs.Bit.{Bits};
ghost use Rattle.sync_rules.specs.Ring.{ring};
ghost use Rattle.sync_rules.specs.Matching.{spell};

use sync_rules::MOST_HELD;

// Reads the number that `count` bits from place `from` on spell, highest first.
pub fn spelled(bits: &[u8; MOST_HELD], from: usize, count: usize) -> u16
    requires fact_1 { Bits bits.now }
    requires fact_2 { count ≤ 16 }
    ensures { result ≡ spell 0 (ring bits.now from count) }
{
    let mut value = 0;
    let mut at = from % MOST_HELD;
    for _i in 0..count {
        value = value * 2 + u16::from(bits[at]);
        at += 1;
        if at == MOST_HELD {
            at = 0;
        }
    }
    value
}
