// A text that grows, seen as the list of its bytes.
ghost use Rattle.std.specs.Prelude.{◌≡◌, List, [], ◌∷◌, ◌++◌, ℕ, ◌+◌, ◌≤◌, length, take};
ghost use Rattle.texts_rules.specs.Decimal.{decimal, signed_decimal};
ghost use Rattle.texts_rules.specs.Text.{line_of};

use crate::Line;
use crate::building::{empty, with_number, with_signed, with_word};
use std::marker::Model;

// A text that grows up to a line's 128 bytes. A contract sees it as the list of its bytes.
#[derive(Drop)]
pub struct Text {
    line: Line,
}

impl Model for Text {
    ghost Value = { List ℕ };

    ghost view = { λ s. take s.line.size s.line.bytes };

    ghost invariant = { λ s. (s.line.size ≤ 128) × (s.line ≡ line_of (take s.line.size s.line.bytes)) };
}

impl Text {
    // Gives a text without a byte.
    pub fn new() -> Text
        ensures { result ≡ [] }
    {
        Text { line: empty() }
    }

    // Puts a word behind the text, where it fits.
    pub fn word(self, word: &[u8]) -> Text
        requires { length self + length word.now ≤ 128 }
        ensures { result ≡ self ++ word.now }
    {
        Text {
            line: with_word(self.line, word),
        }
    }

    // Puts a space and a number behind the text.
    pub fn number(self, n: u64) -> Text
        requires { length self + 21 ≤ 128 }
        ensures size { length result ≤ length self + 21 }
        ensures text { result ≡ self ++ (32 ∷ decimal n) }
    {
        Text {
            line: with_number(self.line, n),
        }
    }

    // Puts a space and a number behind the text, with a minus sign where it is below zero.
    pub fn signed(self, n: i64) -> Text
        requires { length self + 22 ≤ 128 }
        ensures size { length result ≤ length self + 22 }
        ensures text { result ≡ self ++ (32 ∷ signed_decimal n) }
    {
        Text {
            line: with_signed(self.line, n),
        }
    }

    // Gives the line that has the text.
    pub fn line(self) -> Line
        ensures { result ≡ line_of self }
    {
        self.line
    }
}
