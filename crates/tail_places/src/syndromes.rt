// Computes the six syndromes of a tail: its values at 2^0 to 2^5. Of a codeword, and of no other tail, all are zero.
ghost use Rattle.std.specs.Prelude.{◌≡◌, true, false, ℕ, ◌<◌, ◌≤◌, get_or};
ghost use Rattle.bits.specs.Bit.{tab};
ghost use Rattle.field_rules.specs.Field.{power};
ghost use Rattle.tail_rules.specs.Code.{value, syndrome};

use field::Tables;

// Evaluates a polynomial at 2^e, the first coefficient being of highest degree (Horner).
pub(crate) fn horner<const N: usize>(tables: &Tables, coefficients: &[u8; N], e: usize) -> u8
    requires { e ≤ 255 }
    ensures { result ≡ value 0 coefficients.now (power e) }
{
    let mut v = 0;
    for c in coefficients {
        v = tables.times_power(v, e) ^ *c;
    }
    v
}

// Computes the syndromes of a tail: its values at 2^0 to 2^5.
pub fn syndromes_of(tables: &Tables, t: [u8; 14]) -> [u8; 6]
    ensures { result ≡ tab 6 (syndrome t) }
{
    let mut out = [0u8; 6];
    for i in 0..6 {
        out[i] = horner(tables, &t, i);
    }
    out
}

// Tells whether every syndrome is zero.
pub fn all_zero(s: [u8; 6]) -> bool
    ensures { (result ≡ true → (i : ℕ) → i < 6 → get_or s i 0 ≡ 0) × (result ≡ false → ¬ ((i : ℕ) → i < 6 → get_or s i 0 ≡ 0)) }
{
    s.iter().all(|x| *x == 0)
}
