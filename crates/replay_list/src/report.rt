// Prints differences, and the last line.
use crate::tally::Tally;
use channels::send;
use std::io::Write;
use std::rt::Clock;

// Prints bytes, two hexadecimal digits each.
fn print_all_hex<W: Write, C: Clock>(bytes: &[u8], to: &mut W, clock: &C) {
    for &byte in bytes {
        let mut digits = [0u8; 16];
        let n = io::hex(u64::from(byte), 2, &mut digits);
        send(to, &digits[..n], clock);
    }
}

// Prints a word and a number behind it.
fn print_number<W: Write, C: Clock>(word: &[u8], n: u64, to: &mut W, clock: &C) {
    let mut digits = [0u8; 20];
    let size = io::decimal(n, &mut digits);
    send(to, word, clock);
    send(to, &digits[..size], clock);
}

// Prints a case that differs: its number, its kind, the expected answer and the one that was given.
pub(crate) fn difference<W: Write, C: Clock>(
    number: u64,
    kind: u8,
    expected: &[u8],
    given: &[u8],
    to: &mut W,
    clock: &C,
) {
    print_number(b"difference ", number, to, clock);
    print_number(b" ", u64::from(kind), to, clock);
    send(to, b" expected ", clock);
    print_all_hex(expected, to, clock);
    send(to, b" found ", clock);
    print_all_hex(given, to, clock);
    send(to, b"\n", clock);
}

// Prints the counts where the list has ended, with nothing left in the window; else that it is bad, and the number of the case where it is.
pub(crate) fn last_line<W: Write, C: Clock>(left: usize, t: Tally, to: &mut W, clock: &C) {
    if left == 0 {
        print_number(b"cases ", t.cases, to, clock);
        print_number(b" differences ", t.differences, to, clock);
    } else {
        print_number(b"bad list at case ", t.cases.wrapping_add(1), to, clock);
    }
    send(to, b"\n", clock);
}
