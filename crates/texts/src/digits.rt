// Writes bytes as hexadecimal digits.
ghost use Rattle.std.specs.Prelude.{◌≡◌, ◌<◌};
ghost use Rattle.bits.specs.Bit.{tab};
ghost use Rattle.io.specs.Digits.{hex_digit_ascii};
ghost use Rattle.texts_rules.specs.Text.{hex_at};

// Gives a hexadecimal digit in ASCII: 0 to 9, a to f.
fn letter(d: u8) -> u8
    requires { d < 16 }
    ensures { result ≡ hex_digit_ascii d }
{
    if d < 10 { 48 + d } else { 87 + d }
}

// Gives hexadecimal digit i of the payload: two a byte, the high half first.
fn digit_at(payload: &[u8; 20], i: usize) -> u8
    requires { i < 40 }
    ensures { result ≡ hex_at payload.now i }
{
    let b = payload[i / 2];
    if i % 2 < 1 {
        return letter(b / 16);
    }
    letter(b % 16)
}

// Writes the payload in 40 hexadecimal digits.
pub fn hex_of(payload: [u8; 20]) -> [u8; 40]
    ensures { result ≡ tab 40 (hex_at payload) }
{
    let mut digits = [0; 40];
    for (i, digit) in digits.iter_mut().enumerate() {
        *digit = digit_at(&payload, i);
    }
    digits
}
