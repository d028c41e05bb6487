// show
// Prints a journal from standard input: a line for each record.
// `frame OFFSET MATCHED ERRORS OUTCOME`, `gap OFFSET LENGTH`, and last `end RECORDS FRAMES GAPS`;
// the first bad record, or one that the input ends within, is the last: `refused 12 RECORD`.

#![tactic(auto)]

use channels::Desk;

fn main(rt: HostRuntime) {
    let mut desk = Desk {
        out: rt.stdout(),
        errors: rt.stderr(),
        clock: rt,
    };
    if channels::has_argument(&rt, 1) {
        channels::usage(b"show", &mut desk.errors);
        return;
    }
    task_show::show(&mut rt.stdin(), &mut desk);
}
