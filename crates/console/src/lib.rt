// The streams of a program: a session's bytes read, its lines written to standard output, and on standard error what went wrong
// with either. A program passes its streams to these functions. The exit status of such a program is 0 all the same.
#![tactic(auto)]

ghost use Rattle.console.specs.Input.{Fits};

use std::io;
use std::io::{Cursor, Print, Read, Write};

// Reads until the buffer is full or the input ends, unless a read fails: so many bytes, at the buffer's front.
pub fn read(from: &mut impl Read, buffer: &mut [u8]) -> io::Result<usize>
    ensures { Fits result buffer.new }
{
    let mut at: usize = 0;
    while at < buffer.len() {
        match from.read(&mut buffer[at..])? {
            0 => return Ok(at),
            n => at += n,
        }
    }
    Ok(at)
}

// The words of a failure alone: behind those of the system its number stands in brackets.
fn words(shown: &str) -> &str {
    match shown.split_once(" (os error ") {
        Some((words, _)) => words,
        None => shown,
    }
}

// Says on standard error what failed, and why.
pub fn fail(error: &impl Print, what: &[u8], why: io::Error) {
    let mut text = [0u8; 128];
    let mut to = Cursor::new(&mut text[..]);
    let _ = write!(to, "{why}");
    let n = (to.position() as usize).min(128);
    let _ = error.write_all(what);
    let _ = error.write_all(b": ");
    let _ = match std::str::from_utf8(&text[..n]) {
        Ok(shown) => error.write_all(words(shown).as_bytes()),
        Err(_) => error.write_all(b"failed"),
    };
    let _ = error.write_all(b"\n");
}

// MODEL X7: writes the bytes to standard output and answers true, or says on standard error why not all could be written.
pub fn write(output: &impl Print, error: &impl Print, bytes: &[u8]) -> bool {
    if let Err(why) = output.write_all(bytes) {
        fail(error, b"standard output", why);
        return false;
    }
    true
}

// Runs the session and writes its output, as `write` does.
fn print(output: &impl Print, error: &impl Print, input: &[u8]) -> bool {
    let mut out = [0u8; transcript::ROOM];
    match transcript::session(input, &mut out) {
        Ok(k) => write(output, error, &out[..k]),
        Err(_) => false,
    }
}

// MODEL X6 and X7: reads a session into the buffer and prints its lines, or says on standard error that `name` can't be read and
// runs nothing. False where lines could not be written.
pub fn run(
    from: &mut impl Read,
    name: &[u8],
    output: &impl Print,
    error: &impl Print,
    buffer: &mut [u8],
) -> bool {
    match read(from, buffer) {
        Ok(n) => print(output, error, &buffer[..n]),
        Err(why) => {
            fail(error, name, why);
            true
        }
    }
}
