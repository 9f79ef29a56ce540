// MODEL X6 and X7: reads a session from standard input and prints its lines. The first byte of a short session is read, and one
// over the limit, so that a session that is too long is seen to be so.
#![tactic(auto)]

fn main(rt: HostRuntime) {
    let mut input = [0u8; 4098];
    let mut from = rt.stdin();
    console::run(
        &mut from,
        b"standard input",
        &rt.stdout(),
        &rt.stderr(),
        &mut input,
    );
}
