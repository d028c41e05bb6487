// A step of a recording, whatever is made of its frames: the frames of a push go one behind the other into lent memory.
ghost use Rattle.std.specs.Prelude.{◌≡◌, [], ◌∷◌, ℕ, ◌+◌, ◌*◌, ◌≤◌, ◌<◌, length, take};
ghost use Rattle.recorder_rules.specs.Makings.{Making, Sequential};
ghost use Rattle.recorder_rules.specs.Steps.{ValidRecorder, SteppedBy, LaidBy, Fitting, Writable, dibits_of, laid_none, room_for};
ghost use Rattle.sync_call_rules.specs.Calls.{slots};

use crate::{room_for, slot, stepped};
use recorder_rules::{Laid, Recorder, Stepped};
use sync_rules::{Head, ROOM_SIZE};

// Says what a program makes of frames, one frame after the other, and how many bytes a frame may need for it, with the gap before it.
pub trait Lays {
    ghost making: { Self → Making };

    ghost share: { Self → ℕ };

    // Gives how many bytes what is made of a push's three frames may need.
    fn need(&self) -> usize
        ensures { result ≡ (making self.now).need };

    // Lays what is made of a frame behind what is there.
    fn lay_frame(&self, before: Laid, head: Head, envelope: &[u8], out: &mut [u8]) -> Laid
        requires writable { Writable head }
        requires whole { length envelope.now ≡ 48 }
        requires room { before.size + share self.now ≤ length out.old }
        requires few { before.accepted < 3 }
        ensures size { result.size ≤ before.size + share self.now }
        ensures laid { LaidBy (making self.now) out.old out.new before (record { head = head; envelope = envelope.now } ∷ []) result };

    ghost sequential: { (x : Self) → Sequential (making x) };

    ghost three: { (x : Self) → (making x).need ≡ 3 * share x };
}

// Lays what is made of the frames of a push, which follow an earlier one: `count` of them, their heads by value, their envelopes in the room's slots.
fn lay_frames<L: Lays>(
    lays: &L,
    earlier: Option<u64>,
    heads: [Head; 3],
    count: usize,
    room: &[u8],
    out: &mut [u8],
) -> Laid
    requires { Fitting (L.making lays.now).need heads count (length room.now) (length out.old) }
    ensures { LaidBy (L.making lays.now) out.old out.new (laid_none earlier) (slots (take count heads) room.now 0) result }
{
    let mut laid = Laid {
        size: 0,
        accepted: 0,
        earlier,
    };
    for k in 0..count {
        laid = lays.lay_frame(laid, heads[k], slot(room, k), &mut *out);
    }
    laid
}

// Feeds the next dibits, up to the first push that sends frames or is refused, and lays what is made of its frames at the front of `out`. The room is the
// synchroniser's. It stays a call, since the loop over the dibits is slower inside the loop over the pieces.
#[inline(never)]
fn step_in<L: Lays>(
    lays: &L,
    r: Recorder,
    bytes: &[u8],
    from: usize,
    room: &mut [u8],
    out: &mut [u8],
) -> Stepped
    requires valid { ValidRecorder r }
    requires lent { length room.old ≡ room_for (L.making lays.now).need (length out.old) }
    ensures { SteppedBy (L.making lays.now) out.old out.new (dibits_of bytes.now from) r result }
{
    let fed = r.sync.feed_packed(bytes, from, &mut *room);
    let heads = fed.pushed.heads;
    let laid = lay_frames(lays, r.earlier, heads, fed.pushed.count, &*room, out);
    stepped(fed, laid)
}

// Takes packed bytes, four dibits each, from dibit `from` on, up to the first push that sends frames or is refused: the caller goes on with `from + used`.
// What is made of its frames stands at the front of `out`; where that has fewer bytes than three frames may need, a push is refused by 2 and nothing is
// written.
pub fn step<L: Lays>(lays: &L, r: Recorder, bytes: &[u8], from: usize, out: &mut [u8]) -> Stepped
    requires { ValidRecorder r }
    ensures { SteppedBy (L.making lays.now) out.old out.new (dibits_of bytes.now from) r result }
{
    let mut room = [0u8; ROOM_SIZE];
    let size = room_for(lays.need(), out.len());
    step_in(lays, r, bytes, from, &mut room[..size], out)
}
