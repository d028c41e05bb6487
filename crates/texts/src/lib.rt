// A line of text as a value: words and numbers are put into it from left to right.
// building.rt makes a longer line of a line, digits.rt has the hexadecimal digits; crate `texts_printing` writes a line.
// What a line and a number's text are is defined in crate `texts_rules`, what each line says in `lines_rules`.

#![tactic(auto)]

mod building;
mod digits;
mod text;

pub use building::{empty, with_number, with_signed, with_word};
pub use digits::hex_of;
pub use text::Text;
pub use texts_rules::Line;
