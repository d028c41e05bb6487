// Reads the table from the file that an argument names. A table that is missing, cannot be read or is not admitted, its length included, is refused with
// its refusal's number and the file's name, on the stream that the caller gives: standard error, where a program runs alone.

#![tactic(auto)]

ghost use Rattle.std.specs.Prelude.{◌≡◌, true};
ghost use Rattle.protected_rules.specs.Table.{Admitted};

use bits::Refusal;
use std::io::{Read, Write};
use std::rt::{Clock, Env, Files};

// Writes `refused 4` and the file's name to `errors`.
fn refuse<E: Write, C: Clock>(name: &[u8], errors: &mut E, clock: &C) {
    let mut digits = [0; 20];
    let n = io::decimal(u64::from(u8::from(Refusal::Table)), &mut digits);
    channels::complain(b"refused ", errors, clock);
    channels::complain(&digits[..n], errors, clock);
    channels::complain(b" ", errors, clock);
    channels::complain(name, errors, clock);
    channels::complain(b"\n", errors, clock);
}

// Reads the file into the lent table, and tells whether it holds exactly as many bytes: it asks for one more to see that none follows. Where a read fails
// the answer is a no, and nothing else is said of it.
fn read_whole<R: Read, C: Clock>(from: &mut R, table: &mut [u8], clock: &C) -> bool {
    let filled = channels::fill(from, &mut *table, clock);
    let rest = channels::fill(from, &mut [0], clock);
    filled.bytes == table.len() && rest.failed.is_none() && rest.bytes == 0
}

// Reads the file of that name into the lent table, and tells whether it holds exactly as many bytes.
fn filled<F: Files + Clock>(name: &[u8], rt: &F, table: &mut [u8]) -> bool {
    channels::file_of(rt, name).is_ok_and(|mut file| read_whole(&mut file, table, rt))
}

// Reads the table from the file of that name and says yes only where what is left in the lent table is admitted; it refuses any other.
#[tactic(auto, using(protected_rules::proofs::Admission::admits_admitted))]
fn read<F: Files + Clock, E: Write>(name: &[u8], rt: &F, errors: &mut E, table: &mut [u8]) -> bool
    ensures { result ≡ true → Admitted table.new }
{
    let admitted = filled(name, rt, &mut *table) && protected::admitted(table);
    if !admitted {
        refuse(name, errors, rt);
    }
    admitted
}

// Reads the table from the file that argument i names into the lent table of 188 bytes. Says yes only where what is left there is admitted.
pub fn from_argument<F: Files + Clock + Env, E: Write>(
    i: usize,
    rt: &F,
    errors: &mut E,
    table: &mut [u8],
) -> bool
    ensures { result ≡ true → Admitted table.new }
{
    let mut name = io::buffer();
    let n = channels::argument(rt, i, &mut name).unwrap_or(0);
    read(&name[..n], rt, errors, table)
}
