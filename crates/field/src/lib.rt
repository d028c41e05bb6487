// GF(256) over 0x11d: product, quotient and powers of 2, by two constant tables. The definitions, by polynomials, are in crate `field_rules`.
// A constant is stored anew at each use. So a caller with many products makes the tables once, as `Tables`, and lends them down; the free functions
// make them for one answer. Both promise the same.

#![tactic(auto)]

ghost use Rattle.std.specs.Prelude.{◌≡◌};
ghost use Rattle.field_rules.specs.Field.{product, quotient, power};

mod constants;
mod tables;

pub use tables::{LogTable, PowerTable, Tables, power_by, powers};

// Gives the i-th power of 2.
pub fn power(i: usize) -> u8
    ensures { result ≡ power i }
{
    power_by(&powers(), i)
}

// Gives a times b.
pub fn product(a: u8, b: u8) -> u8
    ensures { result ≡ product a b }
{
    Tables::new().product(a, b)
}

// Gives a over b, and 0 where b is 0.
pub fn quotient(a: u8, b: u8) -> u8
    ensures { result ≡ quotient a b }
{
    Tables::new().quotient(a, b)
}
