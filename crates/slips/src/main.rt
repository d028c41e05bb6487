// slips
// Lists the frames in packed dibits on standard input that followed a slip, with their moves.
// `slip OFFSET FRONT SECOND THIRD`: how far a frame's front was moved and its second and third segment lie off their places, in bits;
// and last `end FRAMES SLIPS NETSLIP`.

#![tactic(auto)]

use channels::Desk;

fn main(rt: HostRuntime) {
    let mut desk = Desk {
        out: rt.stdout(),
        errors: rt.stderr(),
        clock: rt,
    };
    if channels::has_argument(&rt, 1) {
        channels::usage(b"slips", &mut desk.errors);
        return;
    }
    task_lines::slips(&mut rt.stdin(), &mut desk);
}
