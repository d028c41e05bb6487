// The steps of a recording, whatever is made of its frames: laying.rt has the step, over a trait that says what is made; here is what every step begins and
// ends with. Crates `recorder_lines` and `recorder` make lines and records of frames.

#![tactic(auto)]

ghost use Rattle.std.specs.Prelude.{◌≡◌, ◌*◌, ◌≤◌, ◌<◌, length, take, drop};
ghost use Rattle.recorder_rules.specs.Statements.{Fresh};
ghost use Rattle.recorder_rules.specs.Steps.{room_for};
ghost use Rattle.sync_rules.specs.Sizes.{slot_size, room_size};
ghost use Rattle.recorder_steps.specs.Ends.{stepped_of};

mod laying;

pub use laying::{Lays, step};
use recorder_rules::{Laid, Recorder, Stepped};
use sync::{Fed, Synchroniser};
use sync_rules::{ROOM_SIZE, SLOT_SIZE};

// Gives a recorder of which nothing is recorded.
pub fn start() -> Recorder
    ensures { Fresh result }
{
    Recorder {
        sync: Synchroniser::new(),
        earlier: None,
    }
}

// Gives how much room the synchroniser is lent where `size` bytes are lent for what its frames may need.
pub fn room_for(need: usize, size: usize) -> usize
    ensures { result ≡ room_for need size }
{
    if size < need { 0 } else { ROOM_SIZE }
}

// Gives the envelope of frame `k` of a push, which lies in slot `k` of the synchroniser's room.
pub fn slot(room: &[u8], k: usize) -> &[u8]
    requires fact_1 { k < 3 }
    requires fact_2 { room_size ≤ length room.now }
    ensures { result.now ≡ take 48 (drop (slot_size * k) room.now) }
{
    let at = SLOT_SIZE * k;
    &room[at..at + 48]
}

// Puts together what a step hands back: what the synchroniser answered, and what is laid of its frames.
pub fn stepped(fed: Fed, laid: Laid) -> Stepped
    ensures { result ≡ stepped_of fed laid }
{
    let pushed = fed.pushed;
    Stepped {
        used: fed.used,
        size: laid.size,
        accepted: laid.accepted,
        answer: pushed.answer,
        next: Recorder {
            sync: pushed.next,
            earlier: laid.earlier,
        },
    }
}
