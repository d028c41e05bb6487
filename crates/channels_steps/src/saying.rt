// Tells a user on standard error why nothing is done.
ghost use Rattle.std.specs.Prelude.{◌≤◌, length};
ghost use Rattle.io.specs.Counts.{IsPrefixLen};

use std::io::{Cursor, Error, ErrorKind, Result, Write};
use std::rt::Files;
use std::{fs, str};

// Lays the bytes into lent memory from index `from` on, as many as find room, and gives the index behind the last.
fn lay(bytes: &[u8], from: usize, room: &mut [u8]) -> usize
    requires { from ≤ length room.old }
    ensures { IsPrefixLen result room.new }
{
    let count = bytes.len().min(room.len() - from);
    let end = from + count;
    room[from..end].copy_from_slice(&bytes[..count]);
    end
}

// Gives how many bytes of an error's text say the system's reason: behind it stands the reason's number, in parentheses.
fn reason_size(reason: Error, text: &[u8]) -> usize
    ensures { result ≤ length text.now }
{
    if reason.raw_os_error().is_none() {
        return text.len();
    }
    let before = text.iter().skip(1).position(|byte| *byte == b'(');
    before.unwrap_or(text.len())
}

// Writes the text of a reason, as the system has it, and lays down what it comes to: nothing can be said of a write that fails here.
fn say_reason<E: Write>(reason: Error, errors: &mut E) {
    let mut text = [0u8; 320];
    let mut cursor = Cursor::new(&mut text[..]);
    let _ = write!(cursor, "{reason}");
    let written = cursor.position();
    if written > 320 {
        return;
    }
    let all = &text[..written as usize];
    let size = reason_size(reason, all);
    let _ = errors.write_all(&all[..size]);
}

// Says on standard error what failed, a colon and the reason.
pub fn fail<E: Write>(what: &[u8], reason: Error, errors: &mut E) {
    let _ = errors.write_all(what);
    let _ = errors.write_all(b": ");
    say_reason(reason, errors);
    let _ = errors.write_all(b"\n");
}

// Says `cannot read NAME: REASON`, of what has that name and could not be opened or read; a name that is longer than any path is cut.
pub fn unreadable<E: Write>(name: &[u8], reason: Error, errors: &mut E) {
    let mut text = io::buffer();
    let begun = lay(b"cannot read ", 0, &mut text);
    let end = lay(name, begun, &mut text);
    fail(&text[..end], reason, errors);
}

// Opens the file of that name for reading. A name that is no text in UTF-8 names none: the language's library opens files by text alone.
pub fn file_of<F: Files>(files: &F, name: &[u8]) -> Result<F::File> {
    match str::from_utf8(name) {
        Ok(text) => fs::open(files, text),
        Err(_) => Err(Error::from(ErrorKind::InvalidInput)),
    }
}

// Opens the file of that name for reading; where that fails it says `cannot read NAME: REASON` and gives the reason.
pub fn open<F: Files, E: Write>(files: &F, name: &[u8], errors: &mut E) -> Result<F::File> {
    let opened = file_of(files, name);
    if let Err(reason) = &opened {
        unreadable(name, *reason, errors);
    }
    opened
}

// Says on standard error how a program is called: `usage: ` and the text.
pub fn usage<E: Write>(text: &[u8], errors: &mut E) {
    let _ = errors.write_all(b"usage: ");
    let _ = errors.write_all(text);
    let _ = errors.write_all(b"\n");
}
