// What a line of text is, and the text of a number. There is no code here: the type of which the definitions speak, and an empty function that carries the
// theorem, so that it cannot vanish. specs/Text.antt says which line has a text, specs/Decimal.antt a number's text.

#![tactic(auto)]

ghost use Rattle.texts_rules.specs.Statements.{Decimals};

// A line: how many bytes it has, and the bytes, with zeros behind them.
// kept: the size beside the bytes, without an invariant: `print`, `print_error` and `print_behind` of crate `texts_printing` promise what they do with a size
// above 128, and an edit tries it. Crate `texts` makes a line by a text that has the invariant.
#[derive(Clone, Copy, Debug, PartialEq, Eq)]
pub struct Line {
    pub size: usize,
    pub bytes: [u8; 128],
}

// The text of a number says the number.
pub fn decimals()
    ensures { Decimals }
{}
