// Searches the path over the 256 states of the code, hard and weighted: one search, whose costs are exact. Its step is in the crate `voice_path_steps`. What it
// finds is defined in the crate `voice_path_rules` (specs/Path.antt), and so is what that means (specs/Nearest.antt).

#![tactic(auto)]

ghost use Rattle.std.specs.Prelude.{◌≡◌, ℕ, ◌+◌, ◌*◌, ◌<◌, get_or};
ghost use Rattle.bits.specs.Bit.{bit_lo, number};
ghost use Rattle.voice_path_rules.specs.Path.{walk, seen_at, searched_by, searched};
ghost use Rattle.voice_path_steps.specs.Steps.{Weighed};
ghost use Rattle.voice_path.specs.Rows.{kept};

use protected_rules::{BitArray, Table};
use protected_word::pack_low;
use std::array;
use voice_path_rules::Seen;
use voice_path_steps::{Stepped, parities, step};

// Packs the choices of eight neighbouring states into byte j of a row.
fn row_byte(chosen: &[u8; 256], j: usize) -> u8
    requires within { j < 32 }
    requires bits { (s : ℕ) → s < 256 → get_or chosen.now s 0 < 2 }
    ensures { result ≡ number 8 (λ i. get_or chosen.now (8 * j + i) 0) }
{
    pack_low(|i| chosen[8 * j + i])
}

// Packs the choices of the 256 states into a row, eight to a byte, the first lowest.
fn pack(chosen: [u8; 256]) -> [u8; 32]
    requires { (s : ℕ) → s < 256 → get_or chosen s 0 < 2 }
    ensures { (s : ℕ) → s < 256 → bit_lo result s ≡ get_or chosen s 0 }
{
    array::from_fn(|j| row_byte(&chosen, j))
}

// Gives what step t has seen: nothing, of weight 0, at the even entry where that is 255.
fn observe(table: &Table, received: &BitArray<176>, weights: &[u8; 176], t: usize) -> Seen
    requires { t < 94 }
    ensures { (result ≡ seen_at table.now.entries received.now.bits weights.now t) × Weighed result }
{
    let odd = usize::from(table.entries[2 * t + 1]);
    let even = usize::from(table.entries[2 * t]);
    let a = u32::from(received.bits[odd]);
    let wa = u32::from(weights[odd]);
    if even == 255 {
        return Seen { a, wa, b: 0, wb: 0 };
    }
    Seen {
        a,
        wa,
        b: u32::from(received.bits[even]),
        wb: u32::from(weights[even]),
    }
}

// Reads bit s of a row: 1 where state s was reached from the prior state of 128 or more.
fn survivor_bit(row: &[u8; 32], s: usize) -> usize
    requires { s < 256 }
    ensures { (result ≡ bit_lo row.now s) × (result < 2) }
{
    usize::from(row[s / 8] >> (s % 8)) % 2
}

// Reads the bits of the path backwards from state 0, in which it ends.
fn trace(survivors: [[u8; 32]; 94]) -> BitArray<94>
    ensures { result.bits ≡ walk (kept survivors) 94 0 }
{
    let mut bits = [0u8; 94];
    let mut state = 0;
    for t in (0..94).rev() {
        bits[t] = (state % 2) as u8;
        state = state / 2 + 128 * survivor_bit(&survivors[t], state);
    }
    BitArray { bits }
}

// Searches with weights: a coded bit that disagrees costs its weight. Rows are filled forwards, one bit a state, and read backwards. 65,536, more than any
// path costs, is the cost of starting elsewhere than in state 0.
pub fn search_by(table: &Table, received: &BitArray<176>, weights: &[u8; 176]) -> BitArray<94>
    ensures { result.bits ≡ searched_by table.now.entries received.now.bits weights.now }
{
    let pairs = parities();
    let mut costs = [65536u32; 256];
    costs[0] = 0;
    let mut survivors = [[0u8; 32]; 94];
    for t in 0..94 {
        let Stepped { next, chosen } = step(&pairs, costs, observe(table, received, weights, t));
        costs = next;
        survivors[t] = pack(chosen);
    }
    trace(survivors)
}

// Searches with each coded bit counting one: the hard search.
pub fn search(table: &Table, received: &BitArray<176>) -> BitArray<94>
    ensures { result.bits ≡ searched table.now.entries received.now.bits }
{
    search_by(table, received, &[1; 176])
}
