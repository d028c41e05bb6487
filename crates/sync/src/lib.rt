// The synchroniser: dibits in, frames out.
// Each push takes the state by value and hands back the next one beside the heads of its frames; envelopes and reliabilities go into the lent room.
// What a push does to the rings and the numbers of a state is in the crates `sync_pushes` and `sync_steps`, what holds of any history of calls in `sync_call_rules`.

#![tactic(auto)]

ghost use Rattle.std.specs.Prelude.{◌≡◌, true, false, length, drop};
ghost use Rattle.sync.specs.View.{ValidSynchroniser, view};
ghost use Rattle.sync_inputs.specs.Inputs.{input_of, inputs_of};
ghost use Rattle.sync.specs.Answers.{PushedBy, handed_of};
ghost use Rattle.sync.specs.Feeds.{FedBy, fed_of, hardly, softly, unpacked};
ghost use Rattle.sync_rules.specs.State.{start, hard, pending, slips, net_slip, stream_end};
ghost use Rattle.sync_rules.specs.Pushes.{quiet};

use bits::Refusal;
use sync_counts::{net_slip_of, slips_of};
use sync_inputs::{Given, Source, answer_to, hard_given, soft_given};
use sync_pushes::{brought, enough, quiet_of};
use sync_rules::{Head, MOST_HELD, StreamFigures};
use sync_steps::{Drained, Numbers, feed_into, nothing, sends};

// kept: `ValidSynchroniser` stands in the clauses of the calls that need it and is no ghost field, by what may not change: `locked`, `frames`, `synchronised_frames`,
// `pending_bits`, `dibits_taken` and `settled` ask for nothing, and would then ask for it of their callers. So the rings stay two arrays without the facts `Bits`.
// Holds the rings of bits and of their reliabilities, and the numbers that say where in them the held bits lie.
#[derive(Clone, Copy)]
pub struct Synchroniser {
    pub bits: [u8; MOST_HELD],
    pub reliabilities: [u8; MOST_HELD],
    pub numbers: Numbers,
}

// Says what a push answers, how many frames went out, their heads (zero behind them), and the next synchroniser.
// kept: a rule of the project (no heap, fixed memory): the count stands beside one array of the three heads that there can be.
#[derive(Clone, Copy)]
pub struct Pushed {
    pub answer: Result<(), Refusal>,
    pub count: usize,
    pub heads: [Head; 3],
    pub next: Synchroniser,
}

// Says how many dibits were taken, and what the last push answered.
#[derive(Clone, Copy)]
pub struct Fed {
    pub used: usize,
    pub pushed: Pushed,
}

impl Synchroniser {
    // Gives a synchroniser that has taken nothing.
    pub fn new() -> Self
        ensures valid_synchroniser { ValidSynchroniser result }
        ensures view { view result ≡ start }
    {
        let figures = StreamFigures {
            taken: 0,
            clock: 0,
            later: 0,
            earlier: 0,
            frames: 0,
            synchronised: 0,
            failures: 0,
            locked: false,
            soft: false,
        };
        let numbers = Numbers {
            first: 0,
            restorable: 0,
            pending: 0,
            figures,
        };
        Synchroniser {
            bits: [0u8; MOST_HELD],
            reliabilities: [0u8; MOST_HELD],
            numbers,
        }
    }

    // Takes a hard dibit.
    pub fn push(self, dibit: u8, room: &mut [u8]) -> Pushed
        requires { ValidSynchroniser self }
        ensures { PushedBy room.old room.new self (hard dibit) result }
    {
        one_push(self, hard_given(dibit), room)
    }

    // Takes a dibit with the reliabilities of its two bits.
    pub fn push_soft(self, dibit: u8, first: u8, second: u8, room: &mut [u8]) -> Pushed
        requires { ValidSynchroniser self }
        ensures { PushedBy room.old room.new self (record { dibit = dibit; of_first = first; of_second = second; soft = true }) result }
    {
        one_push(self, soft_given(dibit, first, second), room)
    }

    // Takes hard dibits one after the other, up to the first that sends frames or is refused. `used` of them were taken: the caller goes on with the rest.
    #[tactic(auto, unfolding(sync_inputs::specs::Inputs::inputs_of))]
    pub fn feed(self, dibits: &[u8], room: &mut [u8]) -> Fed
        requires { ValidSynchroniser self }
        ensures { FedBy room.old room.new (fed_of (length room.old) (hardly dibits.now) (view self)) result }
    {
        one_feed(self, Source::Hard(dibits), room)
    }

    // Takes dibits in the same way with two reliabilities each, as far as both slices reach.
    #[tactic(auto, unfolding(sync_inputs::specs::Inputs::inputs_of))]
    pub fn feed_soft(self, dibits: &[u8], reliable: &[u8], room: &mut [u8]) -> Fed
        requires { ValidSynchroniser self }
        ensures { FedBy room.old room.new (fed_of (length room.old) (softly dibits.now reliable.now) (view self)) result }
    {
        one_feed(self, Source::Soft { dibits, reliable }, room)
    }

    // Takes packed bytes in the same way, four dibits each, from dibit `start` on. A push that sends can cut a byte: the caller goes on with `start + used`.
    #[tactic(auto, unfolding(sync_inputs::specs::Inputs::inputs_of))]
    pub fn feed_packed(self, bytes: &[u8], start: usize, room: &mut [u8]) -> Fed
        requires { ValidSynchroniser self }
        ensures { FedBy room.old room.new (fed_of (length room.old) (hardly (drop start (unpacked bytes.now))) (view self)) result }
    {
        one_feed(self, Source::Packed { bytes, start }, room)
    }

    // Tells whether a lock is held.
    pub fn locked(self) -> bool
        ensures { result ≡ (view self).figures.locked }
    {
        self.numbers.figures.locked
    }

    // Counts the slips followed.
    pub fn slips(self) -> u64
        requires { ValidSynchroniser self }
        ensures { result ≡ slips (view self) }
    {
        slips_of(self.numbers.figures)
    }

    // Gives the signed net slip: two bits for each slip to a later symbol, less two for each to an earlier one.
    pub fn net_slip(self) -> i64
        requires { ValidSynchroniser self }
        ensures { result ≡ net_slip (view self) }
    {
        net_slip_of(self.numbers.figures)
    }

    // Counts the frames sent.
    pub fn frames(self) -> u64
        ensures { result ≡ (view self).figures.frames }
    {
        self.numbers.figures.frames
    }

    // Counts those of them that showed two markers.
    pub fn synchronised_frames(self) -> u64
        ensures { result ≡ (view self).figures.synchronised }
    {
        self.numbers.figures.synchronised
    }

    // Counts the bits pending.
    #[tactic(auto, using(sync_numbers::proofs::Pendings::pending_is))]
    pub fn pending_bits(self) -> usize
        ensures { result ≡ length (pending (view self)) }
    {
        self.numbers.pending
    }

    // Counts the dibits taken.
    pub fn dibits_taken(self) -> u64
        ensures { result ≡ (view self).figures.taken }
    {
        self.numbers.figures.taken
    }

    // Gives the offset below which no further frame goes out.
    pub fn settled(self) -> u64
        ensures { result ≡ (view self).figures.clock }
    {
        self.numbers.figures.clock
    }

    // Gives the end of the stream: the settled offset and the bits pending behind it.
    #[tactic(auto, using(sync_numbers::proofs::Pendings::pending_is))]
    pub fn stream_end(self) -> u64
        requires { ValidSynchroniser self }
        ensures { result ≡ stream_end (view self) }
    {
        self.numbers.figures.clock + self.numbers.pending as u64
    }

    // Tells how many dibits can be pushed or fed before one searches or sends: until then no frame goes out and the settled offset stays.
    pub fn quiet_dibits(self) -> usize
        requires { ValidSynchroniser self }
        ensures { result ≡ quiet (view self) }
    {
        quiet_of(self.numbers)
    }
}

// Puts together what a push hands back: its answer, its frames and the next synchroniser.
fn handed(answer: Result<(), Refusal>, drained: Drained, next: Synchroniser) -> Pushed
    ensures { result ≡ handed_of answer drained next }
{
    let Drained { count, heads, .. } = drained;
    Pushed {
        answer,
        count,
        heads,
        next,
    }
}

// Makes one push. It writes into the state that it hands back: a state that is taken apart and put together again is copied once more.
fn one_push(s: Synchroniser, given: Given, room: &mut [u8]) -> Pushed
    requires { ValidSynchroniser s }
    ensures { PushedBy room.old room.new s (input_of given) result }
{
    let answer = answer_to(s.numbers.figures.taken, given.dibit, room.len());
    let mut next = s;
    if answer.is_err() {
        return handed(answer, nothing(s.numbers), next);
    }
    let one = brought(&mut next.bits, &mut next.reliabilities, s.numbers, given);
    let drained = if enough(one) {
        sends(&next.bits, &next.reliabilities, one, room)
    } else {
        nothing(one)
    };
    next.numbers = drained.numbers;
    handed(answer, drained, next)
}

// Makes the pushes of a source in the same way. It is written into each of the three feeds: where it is not, a feed copies the state once more.
#[inline(always)]
fn one_feed(s: Synchroniser, source: Source<'_>, room: &mut [u8]) -> Fed
    requires { ValidSynchroniser s }
    ensures { FedBy room.old room.new (fed_of (length room.old) (inputs_of source.entry) (view s)) result }
{
    let mut next = s;
    let into = feed_into(
        &mut next.bits,
        &mut next.reliabilities,
        s.numbers,
        source,
        room,
    );
    next.numbers = into.drained.numbers;
    Fed {
        used: into.took,
        pushed: handed(into.answer, into.drained, next),
    }
}
