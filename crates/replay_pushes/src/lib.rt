// The answer of a push and of a feed as bytes (docs/REPLAY.md): the status, the frames in the room, the figures of the next state.

#![tactic(auto)]

ghost use Rattle.replay_bytes.specs.Bytes.{Put};
ghost use Rattle.sync.specs.View.{ValidSynchroniser, view};
ghost use Rattle.replay_pushes.specs.Pushes.{Shown, ShownFed, count_bytes, figure_bytes};

use replay_bytes::{put, put_flag, put_number, put_signed};
use replay_frames::put_frames;
use sync::{Fed, Pushed, Synchroniser};

// Hands back the synchroniser after the case, and the answer's length, where the input fits the kind.
#[derive(Clone, Copy)]
pub struct Synchronised {
    pub size: Option<usize>,
    pub sync: Synchroniser,
}

// Puts the figures that are counted by slips and frames, and the lock.
fn put_counts(out: &mut [u8], to: usize, s: Synchroniser) -> usize
    requires { ValidSynchroniser s }
    ensures { Put out.old to (count_bytes (view s)) out.new result }
{
    let a = put_flag(&mut *out, to, s.locked());
    let b = put_number(&mut *out, a, s.slips(), 4);
    let c = put_signed(&mut *out, b, s.net_slip(), 4);
    put_number(out, c, s.frames(), 4)
}

// Puts all figures of a state.
fn put_figures(out: &mut [u8], to: usize, s: Synchroniser) -> usize
    requires { ValidSynchroniser s }
    ensures { Put out.old to (figure_bytes (view s)) out.new result }
{
    let a = put_counts(&mut *out, to, s);
    let b = put_number(&mut *out, a, s.synchronised_frames(), 4);
    let c = put_number(&mut *out, b, s.pending_bits() as u64, 2);
    let d = put_number(&mut *out, c, s.dibits_taken(), 4);
    put_number(out, d, s.settled(), 8)
}

// Puts the status and, where the push was taken, the frames and the figures. It is written into its callers: where it is a call, the memory of its answer is
// cleared before it.
#[inline(always)]
pub fn put_pushed(out: &mut [u8], to: usize, p: Pushed, room: &[u8]) -> Synchronised
    requires { ValidSynchroniser p.next }
    ensures { Shown p to room.now out.old out.new result }
{
    let sync = p.next;
    match p.answer {
        Ok(()) => {
            let a = put(&mut *out, to, 0);
            let soft = sync.numbers.figures.soft;
            let b = put_frames(&mut *out, a, p.count, p.heads, room, soft);
            Synchronised {
                size: Some(put_figures(out, b, sync)),
                sync,
            }
        }
        Err(refusal) => Synchronised {
            size: Some(put(out, to, u8::from(refusal))),
            sync,
        },
    }
}

// Puts how many dibits were taken, and the answer to the last push.
pub fn put_fed(out: &mut [u8], f: Fed, room: &[u8]) -> Synchronised
    requires { ValidSynchroniser f.pushed.next }
    ensures { ShownFed f room.now out.old out.new result }
{
    let next = put_number(&mut *out, 0, f.used as u64, 2);
    put_pushed(out, next, f.pushed, room)
}
