// Finds the bytes to add at the marked places: a linear system has them, with a power of each place's node in each row and a syndrome on the right.
// A place's mark is 0; the node of place i is 2^(13 - i).
ghost use Rattle.std.specs.Prelude.{◌≡◌, ◌<◌, ◌≤◌, length, take};
ghost use Rattle.bits.specs.Bit.{Bytes, tab};
ghost use Rattle.tail_rules.specs.Code.{syndrome};
ghost use Rattle.tail_rules.specs.Steps.{exponents_of, added_at, RowOf, SystemOf, Corrected};

use field::Tables;
use tail_solving::solve;

// kept: a rule of the project (no heap, fixed memory): the count stands beside one array of the six exponents that there can be.
// The exponents of up to six nodes, and how many these are.
#[derive(Clone, Copy)]
struct Places {
    at: [u8; 6],
    count: usize,
}

// Collects the exponents of the marked places' nodes.
fn exponents(v: [u8; 14]) -> Places
    requires { length (exponents_of v) ≤ 6 }
    ensures { (take result.count result.at ≡ exponents_of v) × (result.count ≡ length (exponents_of v)) × (length result.at ≡ 6) }
{
    let mut at = [0u8; 6];
    let mut count = 0;
    for i in 0..14 {
        if v[i] == 0 {
            at[count] = (13 - i) as u8;
            count += 1;
        }
    }
    Places { at, count }
}

// Makes row r: the r-th power of each node, and the syndrome s on the right.
fn row(tables: &Tables, at: &[u8], r: usize, s: u8) -> [u8; 7]
    requires fact_1 { length at.now ≤ 6 }
    requires fact_2 { r < 6 }
    ensures { RowOf at.now (length at.now) r s result }
{
    let mut out = [0u8; 7];
    for (c, e) in at.iter().enumerate() {
        out[c] = tables.power(r * usize::from(*e));
    }
    out[at.len()] = s;
    out
}

// Makes the six rows; only as many as there are nodes are solved.
fn system(tables: &Tables, at: &[u8], s: [u8; 6]) -> [[u8; 7]; 6]
    requires { length at.now ≤ 6 }
    ensures { SystemOf at.now (length at.now) s result }
{
    let mut out = [[0u8; 7]; 6];
    for r in 0..6 {
        out[r] = row(tables, at, r, s[r]);
    }
    out
}

// Adds the bytes y to the tail t at the marked places, one after the other.
fn added(v: [u8; 14], t: [u8; 14], y: [u8; 6]) -> [u8; 14]
    requires { length (exponents_of v) ≤ 6 }
    ensures { result ≡ added_at v t y }
{
    let mut out = t;
    let mut j = 0;
    for i in 0..14 {
        if v[i] == 0 {
            out[i] = t[i] ^ y[j];
            j += 1;
        }
    }
    out
}

// Changes the tail at the marked places into the one codeword that differs from it there alone; where there is none, the answer is no codeword.
pub fn correct(tables: &Tables, t: [u8; 14], s: [u8; 6], w: [u8; 14]) -> [u8; 14]
    requires fact_1 { Bytes t }
    requires fact_2 { s ≡ tab 6 (syndrome t) }
    requires fact_3 { length (exponents_of w) ≤ 6 }
    ensures { Corrected t w result }
{
    let Places { at, count } = exponents(w);
    let m = system(tables, &at[..count], s);
    let y = solve(tables, m, count);
    added(w, t, y)
}
