// Demand 1 as the contract of the calls themselves: each function makes one public call of the synchroniser, a recording, the merger or the journal
// with what it is given and hands on its answer, so what it promises is what that call answers and leaves in lent memory. The contracts are in
// crates/demands/specs/Demand1.antt.

#![tactic(auto)]

ghost use Rattle.std.specs.Prelude.{drop};
ghost use Rattle.merger.specs.States.{ValidMerger};
ghost use Rattle.recorder_lines.specs.Wants.{making_of};
ghost use Rattle.recorder_rules.specs.Steps.{ValidRecorder, dibits_of};
ghost use Rattle.sync_inputs.specs.Inputs.{hardly, softly, unpacked};
ghost use Rattle.sync.specs.View.{ValidSynchroniser};
ghost use Rattle.sync_rules.specs.State.{hard};
ghost use Rattle.demands.specs.Demand1.{soft, PushRefuses, FeedRefuses, StepRefuses, MergerRefuses, WritingRefuses, ReadingRefuses};

use bits::Refusal;
use journal::Entry;
use merger::{AfterPush, Merger};
use recorder_lines::Wanted;
use recorder_rules::{Recorder, Stepped};
use sync::{Fed, Pushed, Synchroniser};
use sync_rules::Head;

// Tests 1, the dibit, then 2, the room, then 3, the stream's end; a refused push gives the synchroniser back without a frame and leaves the room as it was.
fn push(s: Synchroniser, dibit: u8, room: &mut [u8]) -> Pushed
    requires { ValidSynchroniser s }
    ensures { PushRefuses s (hard dibit) room.old result room.new }
{
    Synchroniser::push(s, dibit, room)
}

// Tests 1, 2 and 3 of a push with reliabilities; a refused one gives the synchroniser back without a frame and leaves the room as it was.
fn push_soft(s: Synchroniser, dibit: u8, first: u8, second: u8, room: &mut [u8]) -> Pushed
    requires { ValidSynchroniser s }
    ensures { PushRefuses s (soft dibit first second) room.old result room.new }
{
    Synchroniser::push_soft(s, dibit, first, second, room)
}

// Tests 1, 2 and 3 of each dibit in its turn; what is refused is one push, and the pushes before it stand.
fn feed(s: Synchroniser, dibits: &[u8], room: &mut [u8]) -> Fed
    requires { ValidSynchroniser s }
    ensures { FeedRefuses s (hardly dibits.now) room.old result room.new }
{
    Synchroniser::feed(s, dibits, room)
}

// Tests 1, 2 and 3 of each dibit with its reliabilities in its turn; what is refused is one push, and the pushes before it stand.
fn feed_soft(s: Synchroniser, dibits: &[u8], reliable: &[u8], room: &mut [u8]) -> Fed
    requires { ValidSynchroniser s }
    ensures { FeedRefuses s (softly dibits.now reliable.now) room.old result room.new }
{
    Synchroniser::feed_soft(s, dibits, reliable, room)
}

// Tests 2 and 3 of each packed dibit from `start` on in its turn, none of which is above 3; what is refused is one push, and the pushes before it stand.
fn feed_packed(s: Synchroniser, bytes: &[u8], start: usize, room: &mut [u8]) -> Fed
    requires { ValidSynchroniser s }
    ensures { FeedRefuses s (hardly (drop start (unpacked bytes.now))) room.old result room.new }
{
    Synchroniser::feed_packed(s, bytes, start, room)
}

// Tests 2, the memory for a push's lines, and 3 of each packed dibit from `from` on in its turn, none of which is above 3; what is refused is one push,
// the pushes before it stand, and nothing is written.
fn list_step(r: Recorder, wanted: Wanted, bytes: &[u8], from: usize, out: &mut [u8]) -> Stepped
    requires { ValidRecorder r }
    ensures { StepRefuses (making_of wanted) r (dibits_of bytes.now from) out.old result out.new }
{
    recorder_lines::step(r, wanted, bytes, from, out)
}

// Tests 7, the stream, then 8, the offset, then late, then 9, the positions; refused or late, the merger itself comes back.
fn merger_push(m: Merger, stream: usize, figures: Head, number: u64, check: bool) -> AfterPush
    requires { ValidMerger m }
    ensures { MergerRefuses m stream figures.offset result }
{
    Merger::push(m, stream, figures, number, check)
}

// Tests 5, the envelope of a frame, then 12, the record and its rules; a refused call leaves the record as it was.
fn write(entry: Entry, envelope: &[u8], record: &mut [u8]) -> Result<(), Refusal>
    ensures { WritingRefuses entry envelope.now «record».old result «record».new }
{
    journal::write(entry, envelope, record)
}

// Tests 12, the record and its rules; a refusal holds nothing but the number.
fn read(record: &[u8]) -> Result<Entry, Refusal>
    ensures { ReadingRefuses «record».now result }
{
    journal::read(record)
}
