// What the programs print: words and decimal numbers with a space between, ended by a line feed.
// specs/Text.antt has the text of each line, specs/Entries.antt what is shown of a journal's record, specs/Slips.antt what is printed of a frame's moves.
// There is no code here but the types of which the definitions speak; each theorem is the `ensures` of an empty function, so that it cannot vanish.

#![tactic(auto)]

ghost use Rattle.lines_rules.specs.Slips.{SlipsTold};
ghost use Rattle.lines_rules.specs.Statements.{CutRecords};

use texts_rules::Line;

// What a journal's record turned out to be: `show` counts frames and gaps, and stops at what is no record.
#[derive(Clone, Copy, Debug, PartialEq, Eq)]
pub enum What {
    AFrame,
    AGap,
    NoRecord,
}

// A record's line, with what the record is.
#[derive(Clone, Copy, Debug, PartialEq, Eq)]
pub struct Shown {
    pub what: What,
    pub line: Line,
}

// A record that the input ends within is refused by 12.
pub fn cut_records()
    ensures { CutRecords }
{}

// A frame has a line among the slips exactly where it has a move.
pub fn slips_told()
    ensures { SlipsTold }
{}
