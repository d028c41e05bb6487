// speech TABLE
// Prints the speech of each frame in packed dibits on standard input, decoded with a table.
// `speech OFFSET CORRECTED PAYLOAD` or `refused OFFSET 6`, gaps, and last `end FRAMES ACCEPTED REFUSED`.

#![tactic(auto)]

use channels::{Desk, has_argument};

fn main(rt: HostRuntime) {
    let mut desk = Desk {
        out: rt.stdout(),
        errors: rt.stderr(),
        clock: rt,
    };
    if !has_argument(&rt, 1) || has_argument(&rt, 2) {
        channels::usage(b"speech TABLE", &mut desk.errors);
        return;
    }
    let mut table = [0u8; 188];
    if table_file::from_argument(1, &rt, &mut desk.errors, &mut table) {
        task_records::speak(&mut rt.stdin(), &table, &mut desk);
    }
}
