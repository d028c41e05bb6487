// Makes a tail by value, with the field's tables lent: six bytes, their CRC-16, and the six parity bytes.
ghost use Rattle.std.specs.Prelude.{◌≡◌, ◌++◌};
ghost use Rattle.tail_rules.specs.Encode.{with_crc, tail_of};

use field::Tables;

// Puts the CRC-16 of six bytes behind them, high byte first.
fn with_crc(d: [u8; 6]) -> [u8; 8]
    ensures { result ≡ with_crc d }
{
    let [high, low] = coding_crc::crc16(&d).to_be_bytes();
    [d[0], d[1], d[2], d[3], d[4], d[5], high, low]
}

// Puts six bytes behind eight.
fn joined(d: [u8; 8], r: [u8; 6]) -> [u8; 14]
    ensures { result ≡ d ++ r }
{
    let mut out = [0u8; 14];
    out[..8].copy_from_slice(&d);
    out[8..].copy_from_slice(&r);
    out
}

// Makes the tail of six bytes, with the tables lent.
#[tactic(auto, unfolding(tail_rules::specs::Encode::tail_of))]
pub fn tail_by(tables: &Tables, d: [u8; 6]) -> [u8; 14]
    ensures { result ≡ tail_of d }
{
    let e = with_crc(d);
    joined(e, tail_parity::parity_bytes(tables, e))
}
