// listing
// Lists the frames in packed dibits on standard input: a line for each frame and each gap.
// `frame OFFSET MATCHED ERRORS`, `gap OFFSET LENGTH`, and last `end FRAMES SLIPS PENDING`, the pending bits.

#![tactic(auto)]

use channels::Desk;

fn main(rt: HostRuntime) {
    let mut desk = Desk {
        out: rt.stdout(),
        errors: rt.stderr(),
        clock: rt,
    };
    if channels::has_argument(&rt, 1) {
        channels::usage(b"listing", &mut desk.errors);
        return;
    }
    task_lines::list(&mut rt.stdin(), &mut desk);
}
