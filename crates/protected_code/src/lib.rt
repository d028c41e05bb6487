// Makes the coded bits of an input, and finds the input of received bits by the inverse filter, over any admitted table.

#![tactic(auto)]

ghost use Rattle.std.specs.Prelude.{◌≡◌, ◌≤◌};
ghost use Rattle.protected_rules.specs.Convolution.{convolved, inverted, coded_apart};

use protected_rules::{BitArray, EVEN_MASK, ODD_MASK, Table};

// Gives the coded bits of the input. The parities go to 256 slots, so that one that belongs nowhere (255) is out of the way.
pub fn convolution(table: &Table, input: &BitArray<94>) -> BitArray<176>
    ensures { result.bits ≡ convolved table.now.entries input.now.bits }
{
    let mut slots = [0u8; 256];
    let mut state = 0;
    for t in 0..94 {
        let register = 2 * state + u32::from(input.bits[t]);
        let even = usize::from(table.entries[2 * t]);
        let odd = usize::from(table.entries[2 * t + 1]);
        slots[even] = bits::parity(register & EVEN_MASK);
        slots[odd] = bits::parity(register & ODD_MASK);
        state = register % 256;
    }
    let mut bits = [0u8; 176];
    bits.copy_from_slice(&slots[..176]);
    BitArray { bits }
}

// Finds the input whose odd parities are the received bits at the odd entries; it looks at no other received bits.
pub fn inverse(table: &Table, received: &[u8; 176]) -> [u8; 94]
    ensures { result ≡ inverted table.now.entries received.now }
{
    let mut input = [0u8; 94];
    let mut state = 0;
    for t in 0..94 {
        let odd = usize::from(table.entries[2 * t + 1]);
        let bit = received[odd] ^ bits::parity((2 * state) & ODD_MASK);
        input[t] = bit;
        state = (2 * state + u32::from(bit)) % 256;
    }
    input
}

// Finds that input where the received are bits: it is bits too.
pub fn inverse_input(table: &Table, received: &BitArray<176>) -> BitArray<94>
    ensures { result.bits ≡ inverted table.now.entries received.now.bits }
{
    BitArray {
        bits: inverse(table, &received.bits),
    }
}

// Counts the coded bits that differ.
pub fn coded_apart(a: &[u8; 176], b: &[u8; 176]) -> u32
    ensures { (result ≡ coded_apart a.now b.now) × (result ≤ 45056) }
{
    let mut d = 0;
    for k in 0..176 {
        d += u32::from(a[k] ^ b[k]);
    }
    d
}
