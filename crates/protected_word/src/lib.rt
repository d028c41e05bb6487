// Reads and writes the coded bits and the payload's bits where they lie in a word.

#![tactic(auto)]

ghost use Rattle.std.specs.Prelude.{◌≡◌, ℕ, ◌+◌, ◌*◌, ◌≤◌, ◌<◌, get_or, length};
ghost use Rattle.bits.specs.Bit.{bit_lo, number};
ghost use Rattle.protected_rules.specs.Word.{coded, with_coded_byte, with_coded, payload_bit, payload_of, front_byte, front};

use protected_rules::BitArray;
use std::array;

// Gives bit i of a slice of bytes, lowest bit first in its byte.
pub fn bit(bytes: &[u8], i: usize) -> u8
    requires { i < 8 * length bytes.now }
    ensures { result ≡ bit_lo bytes.now i }
{
    (bytes[i / 8] >> (i % 8)) % 2
}

// Reads the coded bits of a word, a bit to a byte.
pub fn protected(word: &[u8; 42]) -> BitArray<176>
    ensures { result.bits ≡ coded word.now }
{
    BitArray {
        bits: array::from_fn(|m| bit(word, 40 + 128 * (m % 2) + m / 2)),
    }
}

// Packs the eight bits that `bit` gives into a byte, the first lowest.
pub fn pack_low<F: Fn(usize) -> u8>(bit: F) -> u8
    requires callable { (j : ℕ) → j < 8 → F.pre bit j }
    requires bits { (j b : ℕ) → j < 8 → F.post bit j b → b < 2 }
    ensures { (f : ℕ → ℕ) × ((j : ℕ) → j < 8 → F.post bit j (f j)) × (result ≡ number 8 f) }
{
    bit(0)
        + 2 * bit(1)
        + 4 * bit(2)
        + 8 * bit(3)
        + 16 * bit(4)
        + 32 * bit(5)
        + 64 * bit(6)
        + 128 * bit(7)
}

// Packs eight coded bits, every second one from `from` on, into a byte, the first lowest.
fn gather(code: &BitArray<176>, from: usize) -> u8
    requires { from + 14 < 176 }
    ensures { result ≡ number 8 (λ j. get_or code.now.bits (from + 2 * j) 0) }
{
    pack_low(|j| code.bits[from + 2 * j])
}

// Gives byte k of the word with the coded bits put in: bytes 5 to 15 hold the even ones, bytes 21 to 31 the odd ones, all others stay.
fn coded_byte(word: &[u8; 42], code: &BitArray<176>, k: usize) -> u8
    requires { k < 42 }
    ensures { result ≡ with_coded_byte word.now code.now.bits k }
{
    if k < 5 {
        return word[k];
    }
    if k < 16 {
        return gather(code, 16 * (k - 5));
    }
    if k < 21 {
        return word[k];
    }
    if k < 32 {
        return gather(code, 16 * (k - 21) + 1);
    }
    word[k]
}

// Gives the word with the coded bits put in.
pub fn write_protected(word: &[u8; 42], code: &BitArray<176>) -> [u8; 42]
    ensures { result ≡ with_coded word.now code.now.bits }
{
    array::from_fn(|k| coded_byte(word, code, k))
}

// ---- the payload

// Gives bit i of the payload: the first 78 from the input, 40 from word bytes 0 to 4, 40 from bytes 16 to 20, and two zeros.
fn payload_bit(word: &[u8; 42], input: &BitArray<94>, i: usize) -> u8
    requires { i < 160 }
    ensures { result ≡ payload_bit word.now input.now.bits i }
{
    if i < 78 {
        return input.bits[4 + i];
    }
    if i < 118 {
        return bit(word, i - 78);
    }
    if i < 158 {
        return bit(word, 128 + (i - 118));
    }
    0
}

// Packs eight payload bits into byte k, the first lowest.
fn payload_byte(word: &[u8; 42], input: &BitArray<94>, k: usize) -> u8
    requires { k < 20 }
    ensures { result ≡ number 8 (λ j. payload_bit word.now input.now.bits (8 * k + j)) }
{
    pack_low(|j| payload_bit(word, input, 8 * k + j))
}

// Gives the payload that a word and an input hold.
pub fn payload_of(word: &[u8; 42], input: &BitArray<94>) -> [u8; 20]
    ensures { result ≡ payload_of word.now input.now.bits }
{
    array::from_fn(|k| payload_byte(word, input, k))
}

// Reads eight payload bits from bit i on as a byte, the first lowest.
fn byte_from(payload: &[u8], i: usize) -> u8
    requires { (length payload.now ≡ 20) × (i + 8 ≤ 160) }
    ensures { result ≡ number 8 (λ j. bit_lo payload.now (i + j)) }
{
    pack_low(|j| bit(payload, i + j))
}

// Gives byte k of the front: bytes 0 to 4 hold payload bits 78 to 117, bytes 16 to 20 bits 118 to 157, all others are zero.
fn front_byte(payload: &[u8], k: usize) -> u8
    requires { (length payload.now ≡ 20) × (k < 42) }
    ensures { result ≡ front_byte payload.now k }
{
    if k < 5 {
        return byte_from(payload, 78 + 8 * k);
    }
    if k < 16 {
        return 0;
    }
    if k < 21 {
        return byte_from(payload, 118 + 8 * (k - 16));
    }
    0
}

// Makes a word that holds the payload's last 80 bits in its bytes 0 to 4 and 16 to 20, and zeros in all others.
pub fn front_of(payload: &[u8]) -> [u8; 42]
    requires { length payload.now ≡ 20 }
    ensures { result ≡ front payload.now }
{
    array::from_fn(|k| front_byte(payload, k))
}
