// Makes the six parity bytes of a tail, for the crate `tail_making`: the remainder that a register over the generator leaves, as crate `tail_rules` defines it
// in specs/Encode.antt. `tables` are the field's, lent.

#![tactic(auto)]

ghost use Rattle.std.specs.Prelude.{◌≡◌};
ghost use Rattle.tail_rules.specs.Encode.{generator_of, registered, parity_of};

use field::Tables;

// The generator's seven coefficients, the first of highest degree.
const GENERATOR: [u8; 7] = [1, 63, 1, 218, 32, 227, 38];

// Gives the generator as a value, to be made once a call: a constant is stored anew at each use.
#[tactic(auto, unfolding(tail_rules::specs::Encode::generator_of))]
fn generator() -> [u8; 7]
    ensures { result ≡ generator_of }
{
    GENERATOR
}

// Shifts the register by one byte and takes f times the generator off; f is that byte plus the register's first.
fn register(tables: &Tables, g: &[u8; 7], r: [u8; 6], f: u8) -> [u8; 6]
    requires { g.now ≡ generator_of }
    ensures { result ≡ registered r f }
{
    [
        r[1] ^ tables.product(f, g[1]),
        r[2] ^ tables.product(f, g[2]),
        r[3] ^ tables.product(f, g[3]),
        r[4] ^ tables.product(f, g[4]),
        r[5] ^ tables.product(f, g[5]),
        tables.product(f, g[6]),
    ]
}

// Gives the six parity bytes of eight: what the register holds once they have passed through it.
#[tactic(auto, using(tail_rules::proofs::Registers::registers_more), unfolding(tail_rules::specs::Encode::registers))]
pub fn parity_bytes(tables: &Tables, d: [u8; 8]) -> [u8; 6]
    ensures { result ≡ parity_of d }
{
    let g = generator();
    let mut r = [0u8; 6];
    for x in d {
        r = register(tables, &g, r, x ^ r[0]);
    }
    r
}
