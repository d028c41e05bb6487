// What is pushed and how it is answered, for the crate `sync_steps`: a push by itself, the tests that a push has to pass, and push number n of a feed.
// What is right is in specs/Answers.antt and specs/Inputs.antt.

#![tactic(auto)]

ghost use Rattle.std.specs.Prelude.{◌≡◌, [], ◌∷◌, ◌<◌, ◌≤◌, get_or, take, drop};
ghost use Rattle.sync_rules.specs.Sizes.{most_dibits};
ghost use Rattle.sync_inputs.specs.Answers.{answer_by, takes};
ghost use Rattle.sync_inputs.specs.Inputs.{hard_given, soft_given, GivenBy, hardly, softly, unpacked, inputs_of};

use bits::Refusal;
use sync_rules::{MOST_DIBITS, ROOM_SIZE};

// Answers a push: makes tests 1, 2 and 3 in this order.
#[tactic(auto, unfolding(crate::specs::Answers::answer_by))]
pub fn answer_to(taken: u64, dibit: u8, room: usize) -> Result<(), Refusal>
    ensures { result ≡ answer_by room dibit taken }
{
    if 3 < dibit {
        return Err(Refusal::Dibit);
    }
    if room < ROOM_SIZE {
        return Err(Refusal::FrameRoom);
    }
    if MOST_DIBITS <= taken {
        return Err(Refusal::StreamEnd);
    }
    Ok(())
}

// Counts the pushes made: 1, or 0 of a refused one.
#[tactic(auto, unfolding(crate::specs::Answers::takes))]
pub fn made(answer: Result<(), Refusal>) -> usize
    ensures { result ≡ takes answer }
{
    match answer {
        Ok(()) => 1,
        Err(_) => 0,
    }
}

// Says what a push brings: a dibit, the reliabilities of its two bits, and whether it is a soft push.
#[derive(Clone, Copy)]
pub struct Given {
    pub dibit: u8,
    pub first: u8,
    pub second: u8,
    pub soft: bool,
}

// Makes a hard push: its bits count 255.
pub fn hard_given(dibit: u8) -> Given
    ensures { result ≡ hard_given dibit }
{
    Given {
        dibit,
        first: 255,
        second: 255,
        soft: false,
    }
}

// Makes a soft push.
pub fn soft_given(dibit: u8, first: u8, second: u8) -> Given
    ensures { result ≡ soft_given dibit first second }
{
    Given {
        dibit,
        first,
        second,
        soft: true,
    }
}

// Says what is fed: hard dibits, dibits with two reliabilities each, bytes of four hard dibits from a dibit on, or of such bytes so many dibits at most.
#[derive(Clone, Copy)]
pub enum Source<'a> {
    Hard(&'a [u8]),
    Soft {
        dibits: &'a [u8],
        reliable: &'a [u8],
    },
    Packed {
        bytes: &'a [u8],
        start: usize,
    },
    Stretch {
        bytes: &'a [u8],
        start: usize,
        most: usize,
    },
}

// Takes dibit k out of a byte, the highest first.
#[tactic(auto, unfolding(crate::specs::Inputs::unpacked))]
fn dibit_of(byte: u8, k: usize) -> u8
    requires { k < 4 }
    ensures { result ≡ get_or (unpacked (byte ∷ [])) k 0 }
{
    match k {
        0 => byte / 64 % 4,
        1 => byte / 16 % 4,
        2 => byte / 4 % 4,
        _ => byte % 4,
    }
}

// Makes the hard push of dibit `used`.
#[tactic(auto, using(crate::proofs::Inputs::hardly_next))]
fn hard_at(dibits: &[u8], used: usize) -> Option<Given>
    ensures { GivenBy (hardly dibits.now) used result }
{
    let dibit = *dibits.get(used)?;
    Some(hard_given(dibit))
}

// Makes the soft push of dibit `used`, with its two reliabilities.
fn soft_at(dibits: &[u8], reliable: &[u8], used: usize) -> Option<Given>
    ensures { GivenBy (softly dibits.now reliable.now) used result }
{
    if dibits.len() <= used || reliable.len() / 2 <= used {
        return None;
    }
    Some(soft_given(dibits[used], reliable[2 * used], reliable[2 * used + 1]))
}

// Makes the hard push of dibit `used`, counted from dibit `start` of packed bytes on.
fn packed_at(bytes: &[u8], start: usize, used: usize) -> Option<Given>
    requires { used ≤ most_dibits }
    ensures { GivenBy (hardly (drop start (unpacked bytes.now))) used result }
{
    let byte = *bytes.get(start / 4 + (start % 4 + used) / 4)?;
    let dibit = dibit_of(byte, (start % 4 + used) % 4);
    Some(hard_given(dibit))
}

// Makes the same push where it is one of the first `most`.
fn stretch_at(bytes: &[u8], start: usize, most: usize, used: usize) -> Option<Given>
    requires { used ≤ most_dibits }
    ensures { GivenBy (hardly (take most (drop start (unpacked bytes.now)))) used result }
{
    if most <= used {
        return None;
    }
    packed_at(bytes, start, used)
}

// Makes push `used` of a source, where one is left.
#[tactic(auto, unfolding(crate::specs::Inputs::inputs_of))]
pub fn push_of(source: Source<'_>, used: usize) -> Option<Given>
    requires { used ≤ most_dibits }
    ensures { GivenBy (inputs_of source.entry) used result }
{
    match source {
        Source::Hard(dibits) => hard_at(dibits, used),
        Source::Soft { dibits, reliable } => soft_at(dibits, reliable, used),
        Source::Packed { bytes, start } => packed_at(bytes, start, used),
        Source::Stretch { bytes, start, most } => stretch_at(bytes, start, most, used),
    }
}
