// Makes the 8-bit checksum, and the 94 input bits that carry it.

#![tactic(auto)]

ghost use Rattle.std.specs.Prelude.{◌≡◌, ℕ, ◌+◌, ◌<◌, get_or, length};
ghost use Rattle.protected_rules.specs.Checksum.{crc8_step, then_zeros, input_of, position, checksum_in, checksum_for};
ghost use Rattle.protected_input.specs.Carrying.{Carried};

use protected_rules::BitArray;
use protected_word::{bit, pack_low};

// Shifts a bit in below, and reduces what has come up to 256 by 0x19b.
fn crc8_bit(c: u16, b: u16) -> u16
    requires { (c < 256) × (b < 2) }
    ensures { (result ≡ crc8_step c b) × (result < 256) }
{
    let v = 2 * c + b;
    v ^ (v / 256 * 0x19b)
}

// Gives payload bit i of the 78 that an input holds, and zeros behind them.
fn shifted_bit(input: &BitArray<94>, i: usize) -> u16
    ensures { result ≡ then_zeros (λ (k : ℕ). get_or input.now.bits (4 + k) 0) i }
{
    if i < 78 {
        u16::from(input.bits[4 + i])
    } else {
        0
    }
}

// Computes the checksum of the payload bits that an input holds: it shifts in these and eight zeros.
pub fn checksum_of(input: &BitArray<94>) -> u8
    ensures { result ≡ checksum_for input.now.bits }
{
    let mut sum = 255;
    for i in 0..86 {
        sum = crc8_bit(sum, shifted_bit(input, i));
    }
    sum as u8
}

// ---- where the checksum stands

// The eight input bits that hold the checksum, its lowest bit first.
static POSITIONS: [usize; 8] = [0, 1, 2, 3, 82, 83, 84, 85];

// Gives the input bit that holds bit i of the checksum.
fn position_of(i: usize) -> usize
    requires { i < 8 }
    ensures { (result ≡ position i) × (result < 94) }
{
    POSITIONS[i]
}

// Reads the checksum that an input holds.
pub fn checksum_in(input: &BitArray<94>) -> u8
    ensures { result ≡ checksum_in input.now.bits }
{
    pack_low(|j| input.bits[position_of(j)])
}

// ---- the input bits of a payload

// Puts the payload's first 78 bits in their places, and zeros in all others.
fn carried(payload: &[u8]) -> BitArray<94>
    requires { length payload.now ≡ 20 }
    ensures { Carried payload.now result.bits 78 }
{
    let mut bits = [0u8; 94];
    for i in 0..78 {
        bits[4 + i] = bit(payload, i);
    }
    BitArray { bits }
}

// Makes the input bits of a payload: puts its bits in, and then those of their checksum.
pub fn input_of(payload: &[u8]) -> BitArray<94>
    requires { length payload.now ≡ 20 }
    ensures { result.bits ≡ input_of payload.now }
{
    let carried = carried(payload);
    let sum = checksum_of(&carried);
    let mut bits = carried.bits;
    for i in 0..8 {
        bits[position_of(i)] = (sum >> i) % 2;
    }
    BitArray { bits }
}
