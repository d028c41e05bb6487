// record [TABLE]
// Writes the journal of the frames in packed dibits on standard input to standard output.
// With a table each frame is decoded, and its record says whether it was accepted; without one the frames are untried.

#![tactic(auto)]

use channels::{Desk, has_argument};

fn main(rt: HostRuntime) {
    let mut desk = Desk {
        out: rt.stdout(),
        errors: rt.stderr(),
        clock: rt,
    };
    if !has_argument(&rt, 1) {
        task_records::record(&mut rt.stdin(), &mut desk);
        return;
    }
    if has_argument(&rt, 2) {
        channels::usage(b"record [TABLE]", &mut desk.errors);
        return;
    }
    let mut table = [0u8; 188];
    if table_file::from_argument(1, &rt, &mut desk.errors, &mut table) {
        task_records::record_decoded(&mut rt.stdin(), &table, &mut desk);
    }
}
