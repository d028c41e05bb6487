// merge TABLE PRIMARY ALTERNATE
// Merges two packed recordings of the same time, and writes the journal of the merged frames to standard output.
// Frames that are not in the journal are counted on standard error, where there are any: `late N double N passed over N refused N`.

#![tactic(auto)]

use channels::{Desk, has_argument};
use std::io::{Result, Write};
use std::rt::{Env, Files};

// Opens the file that argument i names; where that fails, it says so with the system's reason on standard error.
fn open_argument<F: Files + Env, E: Write>(i: usize, rt: &F, errors: &mut E) -> Result<F::File> {
    let mut name = io::buffer();
    let n = channels::argument(rt, i, &mut name).unwrap_or(0);
    channels::open(rt, &name[..n], errors)
}

// Reads the table, opens both recordings and merges them; where one of the three is missing, nothing is merged.
fn main(rt: HostRuntime) {
    let mut desk = Desk {
        out: rt.stdout(),
        errors: rt.stderr(),
        clock: rt,
    };
    if !has_argument(&rt, 3) || has_argument(&rt, 4) {
        channels::usage(b"merge TABLE PRIMARY ALTERNATE", &mut desk.errors);
        return;
    }
    let mut table = [0u8; 188];
    if !table_file::from_argument(1, &rt, &mut desk.errors, &mut table) {
        return;
    }
    let Ok(mut primary) = open_argument(2, &rt, &mut desk.errors) else {
        return;
    };
    let Ok(mut alternate) = open_argument(3, &rt, &mut desk.errors) else {
        return;
    };
    task_merge::merge(&table, &mut primary, &mut alternate, &mut desk);
}
