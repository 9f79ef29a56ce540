// MODEL X12: reads a session from standard input and writes its other form to standard output, or says on standard error by
// which number it is refused.
#![tactic(auto)]

use answer::Refusal;
use conversion::NotConverted;
use std::io::Print;

// Says on standard error that the session is refused.
fn refuse(error: &impl Print, r: Refusal) {
    let number = u8::from(r);
    let _ = println!(error; "refused {number}");
}

// Writes the other form of the session, or says why there is none.
fn give(output: &impl Print, error: &impl Print, input: &[u8]) {
    let mut out = [0u8; conversion::ROOM];
    match conversion::convert(input, &mut out) {
        Ok(n) => {
            console::write(output, error, &out[..n]);
        }
        Err(NotConverted::Refused(r)) => refuse(error, r),
        // the buffer has room for any session
        Err(NotConverted::NoRoom) => {}
    }
}

fn main(rt: HostRuntime) {
    let mut input = [0u8; 4098];
    let mut from = rt.stdin();
    match console::read(&mut from, &mut input) {
        Ok(n) => give(&rt.stdout(), &rt.stderr(), &input[..n]),
        Err(why) => console::fail(&rt.stderr(), b"standard input", why),
    }
}
