// What the 384 reliabilities of an envelope say: the weights of the coded bits, and the tail bytes in the order of their least reliable bit. What is
// right is in crate `voice_rules`, specs/Soft.antt. Between crates: that there are 384 of them is tested in `voice_soft`.

#![tactic(auto)]

ghost use Rattle.std.specs.Prelude.{◌≡◌, cond, ◌+◌, ◌*◌, ◌<◌, ltb, length, get_or};
ghost use Rattle.bits.specs.Bit.{Below};
ghost use Rattle.voice_rules.specs.Soft.{reliability, weights_of, least, tail_keys, earliest, least_places};

use std::array;

// Looks up the reliability of word bit i, past the markers.
fn reliability_of(reliabilities: &[u8], i: usize) -> u8
    requires { (length reliabilities.now ≡ 384) × (i < 336) }
    ensures { result ≡ reliability reliabilities.now i }
{
    reliabilities[128 * (i / 112) + 16 + i % 112]
}

// Gives each coded bit the reliability of its place in the word as its weight.
pub fn weights_of(reliabilities: &[u8]) -> [u8; 176]
    requires { length reliabilities.now ≡ 384 }
    ensures { result ≡ weights_of reliabilities.now }
{
    array::from_fn(|m| reliability_of(reliabilities, 40 + 128 * (m % 2) + m / 2))
}

// Gives the reliability of a tail byte's least reliable bit.
fn least_bit(reliabilities: &[u8], b: usize) -> u8
    requires { (length reliabilities.now ≡ 384) × (b < 14) }
    ensures { result ≡ least 7 (λ j. reliability reliabilities.now (8 * (28 + b) + j)) }
{
    let first = 8 * (28 + b);
    let mut key = reliability_of(reliabilities, first);
    for j in 0..7 {
        key = key.min(reliability_of(reliabilities, first + (j + 1)));
    }
    key
}

// Gives each of the fourteen tail bytes its least reliable bit as its key.
pub fn keys_of(reliabilities: &[u8]) -> [u16; 14]
    requires { length reliabilities.now ≡ 384 }
    ensures { result ≡ tail_keys reliabilities.now }
{
    array::from_fn(|b| u16::from(least_bit(reliabilities, b)))
}

// kept: beside `min_by_key`, since that is no plainer: of equal keys the earlier is wanted, by `earliest`, and the place and not the key.
// Gives place n where its key is less than the best one's, else the best.
fn better(keys: &[u16; 14], n: usize, best: usize) -> usize
    requires { (n < 14) × (best < 14) }
    ensures { (result ≡ cond (ltb (get_or keys.now n 0) (get_or keys.now best 0)) n best) × (result < 14) }
{
    if keys[n] < keys[best] { n } else { best }
}

// Finds the earliest of the least keys.
fn earliest_of(keys: &[u16; 14]) -> usize
    ensures { (result ≡ earliest keys.now 14) × (result < 14) }
{
    let mut best = 0;
    for n in 0..14 {
        best = better(keys, n, best);
    }
    best
}

// Takes the six places of least key, the least first and of equal ones the earlier; 256 marks one that is taken.
pub fn least_places(keys: [u16; 14]) -> [u8; 6]
    ensures { (result ≡ least_places keys 6) × Below 14 result }
{
    let mut left = keys;
    let mut places = [0u8; 6];
    for i in 0..6 {
        let p = earliest_of(&left);
        places[i] = p as u8;
        left[p] = 256;
    }
    places
}
