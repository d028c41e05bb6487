// The bytes of a case of docs/REPLAY.md: numbers read from its input, and its answer put together in lent memory. kind.rt names the kinds.

#![tactic(auto)]

ghost use Rattle.std.specs.Prelude.{◌≡◌, ◌∷◌, [], ◌+◌, ◌*◌, ◌<◌, get_or};
ghost use Rattle.bits.specs.BigEndian.{value_of};
ghost use Rattle.bits.specs.Bit.{tab};
ghost use Rattle.replay_bytes.specs.Answers.{written};
ghost use Rattle.replay_bytes.specs.Bytes.{Put, flag_byte, last_bytes, signed_byte, signed_bytes, three_bytes, twos_byte, twos_come_back};

use bits::Refusal;
pub use kind::{Kind, UnknownKind};

mod kind;

// Reads a byte of the input. Past its end there are zeros.
pub fn at(input: &[u8], i: usize) -> u8
    ensures { result ≡ get_or input.now i 0 }
{
    input.get(i).copied().unwrap_or(0)
}

// Reads two bytes as a number.
pub fn pair(high: u8, low: u8) -> usize
    ensures { (result ≡ 256 * high + low) × (result < 65536) }
{
    usize::from(u16::from_be_bytes([high, low]))
}

// Reads the first eight bytes as a number.
#[tactic(auto, unfolding(bits::specs::BigEndian::value_from, bits::specs::Bit::tab))]
pub fn number(bytes: &[u8]) -> u64
    ensures { result ≡ value_of (tab 8 (λ i. get_or bytes.now i 0)) }
{
    u64::from_be_bytes([
        at(bytes, 0),
        at(bytes, 1),
        at(bytes, 2),
        at(bytes, 3),
        at(bytes, 4),
        at(bytes, 5),
        at(bytes, 6),
        at(bytes, 7),
    ])
}

// Puts a byte at a place, if the memory reaches so far, and gives the place behind it.
pub fn put(out: &mut [u8], place: usize, x: u8) -> usize
    ensures { Put out.old place (x ∷ []) out.new result }
{
    if place < out.len() {
        out[place] = x;
        return place + 1;
    }
    out.len()
}

// Puts bytes from a place on, as many as the memory holds, and gives the place behind them.
pub fn put_all(out: &mut [u8], place: usize, bytes: &[u8]) -> usize
    ensures { Put out.old place bytes.now out.new result }
{
    let mut next = place.min(out.len());
    for &x in bytes {
        next = put(&mut *out, next, x);
    }
    next
}

// Puts the answer of a call that writes: the refusal's number, or 0 and the bytes that it wrote.
pub fn put_written(out: &mut [u8], writing: Result<(), Refusal>, bytes: &[u8]) -> usize
    ensures { Put out.old 0 (written writing bytes.now) out.new result }
{
    match writing {
        Ok(()) => {
            let next = put(&mut *out, 0, 0);
            put_all(out, next, bytes)
        }
        Err(refusal) => put(out, 0, u8::from(refusal)),
    }
}

// Puts 1 for yes, 0 for no.
pub fn put_flag(out: &mut [u8], place: usize, flag: bool) -> usize
    ensures { Put out.old place (flag_byte flag ∷ []) out.new result }
{
    put(out, place, u8::from(flag))
}

// Puts a number in as many bytes as asked, up to eight, high byte first.
pub fn put_number(out: &mut [u8], place: usize, x: u64, width: usize) -> usize
    ensures { Put out.old place (last_bytes width x) out.new result }
{
    put_all(out, place, &x.to_be_bytes()[8usize.saturating_sub(width)..])
}

// Puts a number with its sign: 1 where it is below zero, then its amount.
pub fn put_signed(out: &mut [u8], place: usize, n: i64, width: usize) -> usize
    ensures { Put out.old place (signed_bytes width n) out.new result }
{
    let next = put_flag(&mut *out, place, n < 0);
    put_number(out, next, n.unsigned_abs(), width)
}

// Puts a number from -128 to 127 in a byte, in two's complement.
fn put_twos(out: &mut [u8], place: usize, n: i8) -> usize
    ensures { Put out.old place (twos_byte n ∷ []) out.new result }
{
    put(out, place, n.cast_unsigned())
}

// Puts three such numbers, as a frame's moves are.
pub fn put_three(out: &mut [u8], place: usize, a: i8, b: i8, c: i8) -> usize
    ensures { Put out.old place (three_bytes a b c) out.new result }
{
    let second = put_twos(&mut *out, place, a);
    let third = put_twos(&mut *out, second, b);
    put_twos(out, third, c)
}

// Reads a byte as a number in two's complement.
pub fn signed(byte: u8) -> i8
    ensures { result ≡ signed_byte byte }
{
    byte.cast_signed()
}

// Bytes in two's complement are read as the numbers that were put.
pub fn twos_come_back()
    ensures { twos_come_back }
{}
