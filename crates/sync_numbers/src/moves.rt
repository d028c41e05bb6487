// How a frame that is not in place slipped.
ghost use Rattle.std.specs.Prelude.{◌≡◌, ◌+◌, ◌≤◌};
ghost use Rattle.std.proofs.Math.IntN.{sub_ℕ};
ghost use Rattle.sync_numbers.specs.Numbers.{front_seen, moves_seen};

use super::numbers::Numbers;
use sync_rules::Moves;

// Gives at - base, with its sign.
fn away(at: usize, base: usize) -> i8
    requires fact_1 { at ≤ base + 100 }
    requires fact_2 { base ≤ at + 100 }
    ensures { result ≡ sub_ℕ at base }
{
    if at < base {
        -((base - at) as i8)
    } else {
        (at - base) as i8
    }
}

// Tells by how many bits the front moved, by the slips counted before and after.
fn front_moved(c: Numbers, d: Numbers) -> i8
    ensures { result ≡ front_seen c d }
{
    if c.figures.later < d.figures.later {
        2
    } else if c.figures.earlier < d.figures.earlier {
        -2
    } else {
        0
    }
}

// Gives the moves of a frame whose front was found between the numbers c and d, and whose second and third segment start p and q behind it.
pub fn moves_of(c: Numbers, d: Numbers, p: usize, q: usize) -> Moves
    requires fact_1 { (126 ≤ p) × (p ≤ 130) }
    requires fact_2 { (252 ≤ q) × (q ≤ 260) }
    ensures { result ≡ moves_seen c d p q }
{
    Moves {
        front: front_moved(c, d),
        second: away(p, 128),
        third: away(q, 256),
    }
}
