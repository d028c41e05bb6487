// Carries out the program `show`: reads a journal from an open file, and writes a line for each record to standard output. The line is made by
// `lines_records::show_record`; this crate reads, counts and prints.

#![tactic(auto)]

ghost use Rattle.std.specs.Prelude.{◌≡◌, ◌+◌, ◌<◌, ◌≤◌, ◌^◌};
ghost use Rattle.task_show.specs.Tallies.{counted_as, none_printed, Counts};

use channels::{Desk, read_whole};
use lines_rules::What;
use std::io::{Read, Write};
use std::rt::Clock;
use texts_printing::print;

// How many records, frames and gaps were printed.
#[derive(Clone, Copy, Debug, PartialEq, Eq)]
pub struct Printed {
    pub records: u64,
    pub frames: u64,
    pub gaps: u64,
}

// Counts a record as a frame or a gap; what is no record is not counted.
fn counted(p: Printed, what: What) -> Printed
    requires fact_1 { p.records + 1 < 2 ^ 64 }
    requires fact_2 { p.frames ≤ p.records }
    requires fact_3 { p.gaps ≤ p.records }
    ensures { result ≡ counted_as what p }
{
    match what {
        What::AFrame => Printed {
            records: p.records + 1,
            frames: p.frames + 1,
            ..p
        },
        What::AGap => Printed {
            records: p.records + 1,
            gaps: p.gaps + 1,
            ..p
        },
        What::NoRecord => p,
    }
}

// Prints the line of a record, what the input holds of it, and counts it. Says whether to go on: not behind what is no record, nor where its line could not be
// written.
fn show_bytes<W: Write, E: Write, C: Clock>(
    record: &[u8],
    p: &mut Printed,
    desk: &mut Desk<W, E, C>,
) -> bool
    requires fact_1 { Counts p.old }
    requires fact_2 { p.old.records + 1 < 2 ^ 64 }
    ensures counts { Counts p.new }
    ensures few { p.new.records ≤ p.old.records + 1 }
{
    let shown = lines_records::show_record(record, p.records);
    *p = counted(*p, shown.what);
    print(shown.line, desk) && shown.what != What::NoRecord
}

// Prints the next record and counts it, or prints the last line where none is left, and says whether to go on. Nothing more is printed where a read has failed.
fn show_one<R: Read, W: Write, E: Write, C: Clock>(
    input: &mut R,
    p: &mut Printed,
    desk: &mut Desk<W, E, C>,
) -> bool
    requires fact_1 { Counts p.old }
    requires fact_2 { p.old.records + 1 < 2 ^ 64 }
    ensures counts { Counts p.new }
    ensures few { p.new.records ≤ p.old.records + 1 }
{
    let mut record = [0; 64];
    let filled = read_whole(input, &mut record, desk);
    if filled.failed.is_some() {
        return false;
    }
    if filled.bytes == 0 {
        print(lines::end_line(p.records, p.frames, p.gaps), desk);
        return false;
    }
    show_bytes(&record[..filled.bytes], p, desk)
}

// Prints the whole journal and gives its counts. A proved loop has to end, and nothing says that the input does: the loop counts its turns, up to a number that
// no run reaches.
#[tactic(auto, using(crate::proofs::Counting::none_yet))]
pub fn show<R: Read, W: Write, E: Write, C: Clock>(
    input: &mut R,
    desk: &mut Desk<W, E, C>,
) -> Printed
    ensures { Counts result }
{
    let mut p = Printed {
        records: 0,
        frames: 0,
        gaps: 0,
    };
    for _turn in 0..u64::MAX {
        if !show_one(input, &mut p, desk) {
            break;
        }
    }
    p
}
