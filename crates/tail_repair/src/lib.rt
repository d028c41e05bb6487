// Repairs a tail by value, with the field's tables lent: for `voice_hard` and `voice_candidates`, which repair many tails, and for the calls of `tail`.
// What is right is in crate `tail_rules`, specs/Repair.antt: the codeword near the tail, and the number of bytes in which it differs.

#![tactic(auto)]

ghost use Rattle.std.specs.Prelude.{◌≡◌, [], ◌≤◌, length};
ghost use Rattle.bits.specs.Bit.{Below, Bytes};
ghost use Rattle.tail_rules.specs.Code.{wrong};
ghost use Rattle.tail_rules.specs.Repair.{repair_of};
ghost use Rattle.tail_rules.specs.Calls.{repaired_as};

use bits::Refusal;
use field::Tables;
use tail_correcting::correct;
use tail_places::{all_zero, locate, syndromes_of};
pub use tail_rules::RepairedTail;

// kept: a `for`, for speed: as in `zeros` of `tail_places`, a chain that counts executes more.
// Counts the bytes in which the two differ.
fn changed(t: [u8; 14], c: [u8; 14]) -> usize
    ensures { result ≡ wrong [] t c }
{
    let mut n: usize = 0;
    for i in 0..14 {
        if t[i] != c[i] {
            n += 1;
        }
    }
    n
}

// Repairs a tail with at most six places erased: by Berlekamp-Massey and the root search, the system, and the check of all syndromes.
pub fn repair_by(tables: &Tables, tail: [u8; 14], places: &[u8]) -> Result<RepairedTail, Refusal>
    requires fact_1 { Bytes tail }
    requires fact_2 { length places.now ≤ 6 }
    requires fact_3 { Below 14 places.now }
    ensures { result ≡ repaired_as (repair_of places.now tail) }
{
    let s = syndromes_of(tables, tail);
    if all_zero(s) {
        return Ok(RepairedTail { changed: 0, tail });
    }
    let Some(marks) = locate(tables, s, places) else {
        return Err(Refusal::Tail);
    };
    let c = correct(tables, tail, s, marks);
    if !all_zero(syndromes_of(tables, c)) {
        return Err(Refusal::Tail);
    }
    Ok(RepairedTail {
        changed: changed(tail, c),
        tail: c,
    })
}
