// Takes one step of the path search, over the costs of the 256 states: it looks at pairs of states, since the two ways into 2 p and into 2 p + 1 start from the
// same two prior states. What a step is to find is defined in the crate `voice_path_rules` (specs/Path.antt).

#![tactic(auto)]

ghost use Rattle.std.specs.Prelude.{◌≡◌, cond, ℕ, ◌*◌, ◌^◌, ◌<◌, ◌≤◌, get_or, ltb};
ghost use Rattle.bits.specs.Bit.{tab};
ghost use Rattle.voice_path_rules.specs.Path.{disagree, weigh};
ghost use Rattle.voice_path_steps.specs.Steps.{pair_of, Weighed, IsPair, IsStep};

use protected_rules::{EVEN_MASK, ODD_MASK};
use std::array;
use voice_path_rules::Seen;

// The costs of two neighbouring states, and which of its two ways each has come.
#[derive(Clone, Copy)]
pub struct Pair {
    pub even: u32,
    pub odd: u32,
    pub ebit: u8,
    pub obit: u8,
}

// The costs after a step, and the survivor bits of its row.
#[derive(Clone, Copy)]
pub struct Stepped {
    pub next: [u32; 256],
    pub chosen: [u8; 256],
}

// The parities of the registers 2 p, for each prior state p below 128.
#[derive(Clone, Copy)]
pub struct ParityPairs {
    pub of_prior: [u8; 128],
    pub ghost right: { of_prior ≡ tab 128 (λ p. pair_of (2 * p)) },
}

// Gives 1 where x is less than y, else 0.
fn below(x: u32, y: u32) -> u8
    ensures { result ≡ cond (ltb x y) 1 0 }
{
    u8::from(x < y)
}

// Gives the weight w where two bits differ, else 0.
fn unless_same(x: u32, y: u32, w: u32) -> u32
    ensures { result ≡ disagree w x y }
{
    if x == y { 0 } else { w }
}

// Puts both parities of a register into one number: the one under the odd entries' mask, and twice the one under the even entries'.
fn parity_pair(register: u32) -> u8
    ensures { result ≡ pair_of register }
{
    bits::parity(register & ODD_MASK) + 2 * bits::parity(register & EVEN_MASK)
}

// Makes the parities of all pairs of states: once a search, for all its steps.
pub fn parities() -> ParityPairs {
    ParityPairs {
        of_prior: array::from_fn(|p| parity_pair((2 * p) as u32)),
    }
}

// Gives what the register 2 prior costs: the weight of each of its two bits that disagrees with what was seen.
fn differ(pairs: &ParityPairs, prior: usize, seen: Seen) -> u32
    requires within { prior < 128 }
    requires weighed { Weighed seen }
    ensures { result ≡ weigh seen (2 * prior) }
{
    let pair = u32::from(pairs.of_prior[prior]);
    unless_same(pair % 2, seen.a, seen.wa) + unless_same(pair / 2, seen.b, seen.wb)
}

// Takes the cheaper of the two ways into each of the states 2 prior and 2 prior + 1: from the prior state below 128 (`left`) or from the one 128 above it
// (`right`). At equal cost the one below wins.
fn butterfly(left: u32, right: u32, d: u32, e: u32) -> Pair
    requires { (left ≤ 2 ^ 31) × (right ≤ 2 ^ 31) × (d ≤ 510) × (e ≤ 510) }
    ensures { IsPair left right d e result }
{
    Pair {
        even: (left + d).min(right + e),
        odd: (left + e).min(right + d),
        ebit: below(right + e, left + d),
        obit: below(right + d, left + e),
    }
}

// kept: what a step has seen is `Weighed` by a clause, no ghost field of `Seen`: the definition `seen_at` makes a `Seen` of any lists.
// Takes one step from each of the 128 pairs of prior states. A register whose first or last bit alone is another has both parities the other way, and costs
// the rest of the weights.
pub fn step(pairs: &ParityPairs, costs: [u32; 256], seen: Seen) -> Stepped
    requires weighed { Weighed seen }
    requires by_index { (s : ℕ) → s < 256 → get_or costs s 0 ≤ 2 ^ 31 }
    ensures { IsStep costs seen result }
{
    let mut next = [0u32; 256];
    let mut chosen = [0u8; 256];
    for prior in 0..128 {
        let d = differ(pairs, prior, seen);
        let p = butterfly(costs[prior], costs[prior + 128], d, seen.wa + seen.wb - d);
        next[2 * prior] = p.even;
        next[2 * prior + 1] = p.odd;
        chosen[2 * prior] = p.ebit;
        chosen[2 * prior + 1] = p.obit;
    }
    Stepped { next, chosen }
}
