// Makes the locator of the erased places, and takes these places out of the syndromes (Forney).
ghost use Rattle.std.specs.Prelude.{◌≡◌, ◌≤◌};
ghost use Rattle.bits.specs.Bit.{Below};
ghost use Rattle.tail_rules.specs.Steps.{erasure_locator, Forney};

use crate::massey::{corrected, discrepancy};
use field::Tables;

// Multiplies 1 + 2^(13 - e) x over the erased places e, from the last to the first as the definition does.
pub fn erased_locator(tables: &Tables, es: &[u8]) -> [u8; 7]
    requires { Below 14 es.now }
    ensures { result ≡ erasure_locator es.now }
{
    let mut g = [1, 0, 0, 0, 0, 0, 0];
    for i in (0..es.len()).rev() {
        let x = tables.power(13 - usize::from(es[i]));
        let more = corrected(tables, g, 1, x, g);
        g = more;
    }
    g
}

// Takes the f erased places, whose locator is g, out of the syndromes: 6 - f are left.
pub fn forney(tables: &Tables, g: [u8; 7], s: [u8; 6], f: usize) -> [u8; 6]
    requires { f ≤ 6 }
    ensures { Forney g s f result }
{
    let mut out = [0u8; 6];
    for i in 0..6 - f {
        out[i] = discrepancy(tables, g, s, f + i);
    }
    out
}
