// The field's two tables as one value, which carries that they keep their rule, and the field's calls by them.
ghost use Rattle.std.specs.Prelude.{◌≡◌, ◌≤◌};
ghost use Rattle.field_rules.specs.Field.{product, quotient, power, add_scaled, Log};
ghost use Rattle.field.specs.Lent.{Powers, Logs};

use crate::constants::{LOGS, POWERS};

// The first 510 powers of 2, as a caller lends them to `power_by`: two logarithms add up to less than 510.
pub type PowerTable = [u8; 510];

// The logarithm of each byte to the base 2; entry 0 is never used.
pub type LogTable = [u8; 256];

// The powers of 2, and the logarithm of each byte to the base 2, whose entry 0 is never used. The layers above pass the value on and know nothing of what
// it holds, so that a `field` with smaller tables, or with none, can stand in for this crate.
#[derive(Clone, Copy)]
pub struct Tables {
    pub powers: PowerTable,
    pub logs: LogTable,
    pub ghost powers_kept: { Powers powers },
    pub ghost logs_kept: { Logs logs },
}

// Gives the table of powers alone, for a caller who needs no product.
pub fn powers() -> PowerTable
    ensures { Powers result }
{
    POWERS
}

// Gives the i-th power of 2 by the lent table of powers, for any i: the powers come again after 255. No logarithm is needed for it.
pub fn power_by(powers: &PowerTable, i: usize) -> u8
    requires { Powers powers.now }
    ensures { result ≡ power i }
{
    powers[i % 255]
}

impl Tables {
    // Makes the tables, for a caller to lend.
    pub fn new() -> Self {
        Tables {
            powers: POWERS,
            logs: LOGS,
        }
    }

    // Looks up the logarithm of a byte other than 0; for 0, which has none, the answer means nothing.
    fn log(&self, a: u8) -> usize
        ensures { Log a result }
    {
        usize::from(self.logs[usize::from(a)])
    }

    // Gives the i-th power of 2, for any i: the powers come again after 255.
    pub fn power(&self, i: usize) -> u8
        ensures { result ≡ power i }
    {
        power_by(&self.powers, i)
    }

    // Gives a times b: the power whose exponent is the sum of the logarithms, and 0 where a or b is 0.
    pub fn product(&self, a: u8, b: u8) -> u8
        ensures { result ≡ product a b }
    {
        if a == 0 || b == 0 {
            return 0;
        }
        self.powers[self.log(a) + self.log(b)]
    }

    // Gives a times 2^e, for e up to 255: a logarithm and a test less than a product.
    pub fn times_power(&self, a: u8, e: usize) -> u8
        requires { e ≤ 255 }
        ensures { result ≡ product a (power e) }
    {
        if a == 0 {
            return 0;
        }
        self.powers[self.log(a) + e]
    }

    // Gives a over b, and 0 where b is 0. The 255 changes no power and keeps the difference of the logarithms above 0.
    pub fn quotient(&self, a: u8, b: u8) -> u8
        ensures { result ≡ quotient a b }
    {
        if a == 0 || b == 0 {
            return 0;
        }
        self.powers[self.log(a) + 255 - self.log(b)]
    }

    // Adds k times the bytes of `other` to those of `row`, one by one, as far as both reach.
    pub fn add_multiple(&self, row: &mut [u8], k: u8, other: &[u8])
        ensures { row.new ≡ add_scaled row.old k other.now }
    {
        for i in 0..row.len().min(other.len()) {
            row[i] ^= self.product(k, other[i]);
        }
    }
}
