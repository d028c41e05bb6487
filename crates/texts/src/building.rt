// Puts text into a line, from left to right. A line may be any here, one without a text too: that is what these calls promise. `Text` is what the crates above take.
ghost use Rattle.std.specs.Prelude.{◌≡◌, List, [], ◌∷◌, ◌++◌, ℕ, ◌+◌, ◌≤◌, length};
ghost use Rattle.texts_rules.specs.Decimal.{decimal, signed_decimal};
ghost use Rattle.texts_rules.specs.Text.{line_of};

use crate::Line;

// Gives a line without text.
#[tactic(auto, unfolding(texts_rules::specs::Text::line_of))]
pub fn empty() -> Line
    ensures size { result.size ≡ 0 }
    ensures text { result ≡ line_of [] }
{
    Line {
        size: 0,
        bytes: [0; 128],
    }
}

// Puts a word behind a line's text, where it fits the line's 128 bytes.
pub fn with_word(line: Line, word: &[u8]) -> Line
    requires { line.size + length word.now ≤ 128 }
    ensures size { result.size ≡ line.size + length word.now }
    ensures text { (t : List ℕ) → line ≡ line_of t → result ≡ line_of (t ++ word.now) }
{
    let size = line.size + word.len();
    let mut bytes = line.bytes;
    bytes[line.size..size].copy_from_slice(word);
    Line { size, bytes }
}

// Puts a number's decimal digits behind a line's text: at most twenty.
fn with_digits(line: Line, n: u64) -> Line
    requires { line.size + 20 ≤ 128 }
    ensures size { result.size ≤ line.size + 20 }
    ensures text { (t : List ℕ) → line ≡ line_of t → result ≡ line_of (t ++ decimal n) }
{
    let mut digits = [0; 20];
    let k = io::decimal(n, &mut digits);
    with_word(line, &digits[..k])
}

// Puts a space and a number behind a line's text.
pub fn with_number(line: Line, n: u64) -> Line
    requires { line.size + 21 ≤ 128 }
    ensures size { result.size ≤ line.size + 21 }
    ensures text { (t : List ℕ) → line ≡ line_of t → result ≡ line_of (t ++ (32 ∷ decimal n)) }
{
    with_digits(with_word(line, b" "), n)
}

// Puts a space and a number behind a line's text, with a minus sign where it is below zero.
pub fn with_signed(line: Line, n: i64) -> Line
    requires { line.size + 22 ≤ 128 }
    ensures size { result.size ≤ line.size + 22 }
    ensures text { (t : List ℕ) → line ≡ line_of t → result ≡ line_of (t ++ (32 ∷ signed_decimal n)) }
{
    if n < 0 {
        return with_digits(with_word(line, b" -"), n.unsigned_abs());
    }
    with_number(line, n.unsigned_abs())
}
