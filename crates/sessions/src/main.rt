// Runs the sessions in the files that its arguments name, and prints each name and the session's lines: the stored examples. A
// file that can't be opened or read is named on standard error, and the next one follows; where nothing can be written, it ends.
#![tactic(auto)]

use std::env::{Env, FillError};
use std::io::{ErrorKind, Print};
use std::rt::Files;
use std::{fs, io};

// ENAMETOOLONG, the system's number for a name that is too long.
const NAME_TOO_LONG: i32 = 36;

// Opens the file of this name. The names of files are text.
fn open<R: Files>(rt: &R, name: &[u8]) -> io::Result<R::File> {
    match std::str::from_utf8(name) {
        Ok(path) => fs::open(rt, path),
        Err(_) => Err(io::Error::new(ErrorKind::InvalidInput, "not UTF-8")),
    }
}

// One file: its name, and the lines of its session.
fn show(rt: &impl Files, output: &impl Print, error: &impl Print, name: &[u8]) -> bool {
    if !(console::write(output, error, b"== ")
        && console::write(output, error, name)
        && console::write(output, error, b"\n"))
    {
        return false;
    }
    match open(rt, name) {
        Ok(file) => {
            let mut from = file;
            let mut input = [0u8; 4098];
            console::run(&mut from, name, output, error, &mut input)
        }
        Err(why) => {
            console::fail(error, name, why);
            true
        }
    }
}

// The file that argument i names. False where there is none, or lines could not be written.
fn show_argument(
    rt: &(impl Env + Files),
    output: &impl Print,
    error: &impl Print,
    i: usize,
) -> bool {
    let mut name = [0u8; 64];
    match rt.arg(i, &mut name) {
        Ok(n) => show(rt, output, error, &name[..n]),
        Err(FillError::NotPresent) => false,
        Err(FillError::TooLong) => {
            let why = io::Error::from_raw_os_error(NAME_TOO_LONG);
            console::fail(error, b"a name of over 64 bytes", why);
            true
        }
    }
}

fn main(rt: HostRuntime) {
    for i in 1..usize::MAX {
        if !show_argument(&rt, &rt.stdout(), &rt.stderr(), i) {
            return;
        }
    }
}
