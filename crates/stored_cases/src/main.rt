// stored_cases CASE..
// Runs the programs on the stored cases of the gate.
// A case is a program, its table if it has one, and its files;
// a line with these words stands before what the program writes, what it says of its table included.
// `record` is without a table, `record-with` has one.

#![tactic(auto)]

ghost use Rattle.std.specs.Prelude.{◌≡◌, ◌<◌, ◌≤◌, IfSome};

use channels::{Desk, send};
use std::fs::File;
use std::io::{Read, Stderr, Stdout};
use std::{env, fs, io};

// Where the answers go; what a case says of its table goes there too.
type Table = Desk<Stdout, Stderr, HostRuntime>;

// A file that was to be opened. Where that failed, so does each read, for the same reason.
#[derive(Drop)]
struct CaseFile(io::Result<File>);

impl Read for CaseFile {
    fn read(&mut self, buf: &mut [u8]) -> io::Result<usize> {
        match &mut self.0 {
            Ok(file) => file.read(buf),
            Err(reason) => Err(*reason),
        }
    }
}

// Gives argument i, or no text where there are not so many.
fn word(words: &[String], i: usize) -> &str {
    words.get(i).map_or("", |text| text.as_str())
}

// Gives letter i of a word, if it has so many.
fn letter_at(text: &str, i: usize) -> Option<u8> {
    text.as_bytes().get(i).copied()
}

// Prints a text as a part of the case's line.
fn say(text: &[u8], desk: &mut Table) {
    send(&mut desk.out, text, &desk.clock);
}

// Prints argument i as a word of the case's line.
fn name(words: &[String], i: usize, desk: &mut Table) {
    say(b" ", desk);
    say(word(words, i).as_bytes(), desk);
}

// Prints argument i as a word of the case's line, and opens the file of that name.
fn opened(words: &[String], i: usize, desk: &mut Table) -> CaseFile {
    name(words, i, desk);
    CaseFile(fs::open(&desk.clock, word(words, i)))
}

// Runs listing, slips, record or show on a file; their second letters tell them apart. Gives how many arguments the case has.
fn run_on_file(second: Option<u8>, words: &[String], i: usize, desk: &mut Table) -> usize
    ensures { result ≡ 2 }
{
    let mut file = opened(words, i, desk);
    say(b"\n", desk);
    match second {
        Some(b'i') => {
            task_lines::list(&mut file, desk);
        }
        Some(b'l') => {
            task_lines::slips(&mut file, desk);
        }
        Some(b'e') => {
            task_records::record(&mut file, desk);
        }
        Some(b'h') => {
            task_show::show(&mut file, desk);
        }
        _ => {}
    }
    2
}

// Reads the table that argument i names into lent memory. What is said of it goes to standard output.
fn table_at(i: usize, table: &mut [u8], desk: &mut Table) -> bool {
    table_file::from_argument(i, &desk.clock, &mut desk.out, table)
}

// Runs record-with or speech on a table and a file, and gives how many arguments the case has.
fn run_with_table(first: Option<u8>, words: &[String], i: usize, desk: &mut Table) -> usize
    requires { i < 200 }
    ensures { result ≡ 3 }
{
    name(words, i, desk);
    let mut file = opened(words, i + 1, desk);
    say(b"\n", desk);
    let mut table = [0u8; 188];
    if table_at(i, &mut table, desk) {
        if first == Some(b'r') {
            task_records::record_decoded(&mut file, &table, desk);
        } else {
            task_records::speak(&mut file, &table, desk);
        }
    }
    3
}

// Runs merge on a table and two recordings, and gives how many arguments the case has.
fn run_merge(words: &[String], i: usize, desk: &mut Table) -> usize
    requires { i < 200 }
    ensures { result ≡ 4 }
{
    name(words, i, desk);
    let mut primary = opened(words, i + 1, desk);
    let mut alternate = opened(words, i + 2, desk);
    say(b"\n", desk);
    let mut table = [0u8; 188];
    if table_at(i, &mut table, desk) {
        task_merge::merge(&table, &mut primary, &mut alternate, desk);
    }
    4
}

// Runs the case at argument i, whose program it tells by its letters, and gives how many arguments it has, if there is a case.
// kept: letters in place of whole names, for what may not change: other words with these letters run a program too.
fn run_one(words: &[String], i: usize, desk: &mut Table) -> Option<usize>
    requires { i < 199 }
    ensures { IfSome result (λ n. (0 < n) × (n ≤ 4)) }
{
    let program = word(words, i);
    if program.is_empty() {
        return None;
    }
    say(b"== ", desk);
    say(program.as_bytes(), desk);
    let first = letter_at(program, 0);
    let second = letter_at(program, 1);
    let used = if first == Some(b'm') {
        run_merge(words, i + 1, desk)
    } else if second == Some(b'p') || letter_at(program, 6) == Some(b'-') {
        run_with_table(first, words, i + 1, desk)
    } else {
        run_on_file(second, words, i + 1, desk)
    };
    Some(used)
}

// Runs the cases one after the other, as far as there are arguments; no case begins at argument 199 or later.
fn main(rt: HostRuntime) -> io::Result<()> {
    let mut desk = Desk {
        out: rt.stdout(),
        errors: rt.stderr(),
        clock: rt,
    };
    let words: Vec<String> = env::args(&rt)?.collect(rt.alloc())?;
    // kept: a `while`, since a `for` is no plainer: i goes on by the words that each case took.
    let mut i = 1;
    while i < 199 {
        let Some(used) = run_one(&words, i, &mut desk) else {
            break;
        };
        i += used;
    }
    Ok(())
}
