// replay
// Runs a case list from standard input over the libraries and says where an answer is not the expected one.
// docs/REPLAY.md has the list's format. Prints the first ten differences, and last `cases N differences D` or `bad list at case N`.

#![tactic(auto)]

// The crate `replay_list` reads the list and prints; a case is answered by its kind in `replay_voice` (1 to 11), `replay_sync` (12 to 14, 18 to 20) and
// `replay_merger` (15 to 17).
use merger::Merger;
use replay_list::{Tally, case_after, input_of, judged};
use replay_merger::merger_case;
use replay_sync::synchroniser_case;
use replay_voice::coding_case;
use std::io::{Read, Write};
use std::rt::Clock;
use sync::Synchroniser;
use sync_rules::ROOM_SIZE;

// Runs the cases one after the other. Each is handed to the three that answer kinds, and two of them hand on the size of an answer that is not theirs.
// A proved loop has to end, and nothing says that the input does: the turns are as many as no run uses up.
fn replayed<R: Read, W: Write, C: Clock>(
    window: &mut [u8],
    table: &mut [u8],
    room: &mut [u8],
    out: &mut [u8],
    list: &mut R,
    to: &mut W,
    clock: &C,
) {
    let mut sync = Synchroniser::new();
    let mut merger = Merger::new();
    let mut tabled = 0;
    let mut before = None;
    let mut t = Tally {
        cases: 0,
        differences: 0,
    };
    for _ in 0..u64::MAX {
        let found = case_after(&mut *window, before, list, clock);
        let Ok(c) = found else {
            let _ = judged(t, &*window, found, &*out, None, to, clock);
            return;
        };
        let input = input_of(&*window, c);
        let one = coding_case(c.kind, &mut *table, tabled, input, &mut *out);
        tabled = one.table;
        let two = synchroniser_case(c.kind, one.size, sync, input, &mut *room, &mut *out);
        sync = two.sync;
        let three = merger_case(c.kind, two.size, merger, input, &mut *out);
        merger = three.merger;
        let Some(more) = judged(t, &*window, found, &*out, three.size, to, clock) else {
            return;
        };
        t = more;
        before = Some(c);
    }
}

// Lends all the memory that a run needs.
fn main(rt: HostRuntime) {
    let mut window = io::large_buffer();
    let mut table = [0u8; 256];
    let mut room = [0u8; ROOM_SIZE];
    let mut out = [0u8; 2048];
    replayed(
        &mut window,
        &mut table,
        &mut room,
        &mut out,
        &mut rt.stdin(),
        &mut rt.stdout(),
        &rt,
    );
}
