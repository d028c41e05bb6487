// Marks where a tail may be wrong: the roots of the locator that Berlekamp-Massey finds, and the erased places.
ghost use Rattle.std.specs.Prelude.{◌≡◌, ◌==◌, ◌+◌, ◌≤◌, length, count_by};
ghost use Rattle.bits.specs.Bit.{Below, tab};
ghost use Rattle.field_rules.specs.Field.{power};
ghost use Rattle.tail_rules.specs.Steps.{eval_at, mark_at, Located};

use crate::places::is_among;
use crate::syndromes::horner;
use field::Tables;
use tail_locators::{erased_locator, forney, shortest_locator};

// Evaluates the locator for each place p, at 2^(242 + p), which is 1 over the place's node 2^(13 - p): 0 says that p is a root's place.
fn values(tables: &Tables, loc: [u8; 7]) -> [u8; 14]
    ensures { result ≡ tab 14 (λ p. eval_at loc (power (242 + p))) }
{
    let mut highest_first = loc;
    highest_first.reverse();
    let mut out = [0u8; 14];
    for p in 0..14 {
        out[p] = horner(tables, &highest_first, 242 + p);
    }
    out
}

// kept: a `for`, for speed: `filter` and `count` here were measured at 2.7 % of the repair of a tail more.
// Counts the zeros.
fn zeros(v: [u8; 14]) -> usize
    ensures { result ≡ count_by (λ x. x == 0) v }
{
    let mut n: usize = 0;
    for x in v {
        if x == 0 {
            n += 1;
        }
    }
    n
}

// Marks the roots' places and the erased places, each by a 0.
fn marked(v: [u8; 14], es: &[u8]) -> [u8; 14]
    ensures { result ≡ tab 14 (mark_at es.now v) }
{
    let mut out = v;
    for (p, x) in out.iter_mut().enumerate() {
        if is_among(es, p) {
            *x = 0;
        }
    }
    out
}

// Finds where a tail with these syndromes may be wrong, and marks these places by a 0. There is no repair where the locator's degree is too high or it has not
// as many roots among the places.
pub fn locate(tables: &Tables, s: [u8; 6], es: &[u8]) -> Option<[u8; 14]>
    requires fact_1 { length es.now ≤ 6 }
    requires fact_2 { Below 14 es.now }
    ensures { Located es.now s result }
{
    let f = es.len();
    let g = erased_locator(tables, es);
    let q = forney(tables, g, s, f);
    let st = shortest_locator(tables, q, 6 - f);
    if 6 < 2 * st.degree + f {
        return None;
    }
    let v = values(tables, st.loc);
    if zeros(v) != st.degree {
        return None;
    }
    Some(marked(v, es))
}
