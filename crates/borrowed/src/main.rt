// Four accesses by `in_place::step`, to which one record is lent. Each answer is printed as a session prints it, the next access
// finds the record as the one before it left it, and at the end a counter of the record is printed.
#![tactic(auto)]

ghost use Rattle.std.specs.Prelude.{[], ◌∷◌, ◌≡◌, ◌<◌};
ghost use Rattle.fields.specs.Set.{set, set_all, set_level};
ghost use Rattle.machine.specs.Machine.{fresh};
ghost use Rattle.rules.specs.Step.{step};

use answer::Answer;
use machine::Machine;
use std::io::Print;
use text::Writer;

// The record after the set command: v to the field with number f.
fn with(r: Machine, f: u8, v: u64) -> Machine
    ensures { result ≡ (set f v r).machine }
{
    fields::set::set(f, v, r).machine
}

// The fresh record with PMUv3 and two event counters, of which counter 1 is enabled, at level 1.
#[tactic(auto, unfolding(fields::specs::Set::set_all))]
fn start() -> Machine
    ensures { result ≡ (set_level 1 (set_all ((0x00, 1) ∷ (0x0C, 2) ∷ (0x34, 2) ∷ (0x3D, 1) ∷ []) fresh)).machine }
{
    let stopped = with(with(machine::fresh::fresh(), 0x00, 1), 0x0C, 2);
    let r = with(with(stopped, 0x34, 2), 0x3D, 1);
    fields::set::set_level(1, r).machine
}

// Prints the line of an answer, as a session does.
fn print(output: &impl Print, position: u64, a: Answer)
    requires { position < 10000 }
{
    let mut out = [0u8; 45];
    let mut w = Writer::new(&mut out);
    line::line(&mut w, position, a);
    let end = w.place();
    let _ = output.write_all(&out[..end]);
}

// The access at this position, with word w and operand x, to the record that is lent: its line is printed.
fn access(output: &impl Print, r: &mut Machine, position: u64, w: u32, x: u64)
    requires { position < 10000 }
    ensures { r.new ≡ (step w x r.old).machine }
{
    let a = in_place::step(r, w, x);
    print(output, position, a);
}

fn main(rt: HostRuntime) {
    let output = rt.stdout();
    let mut m = start();
    // MSR of counter 1: without p5 the low 32 bits of the operand, 41, are stored
    access(&output, &mut m, 1, 0xD51BE822, 0x100000029);
    // PMSWINC, of which bit 1 counts
    access(&output, &mut m, 2, 0xD51B9C81, 2);
    // MRS of counter 1
    access(&output, &mut m, 3, 0xD53BE822, 0);
    // MRS of counter 2: N is 2, so it is undefined, and the record stays
    access(&output, &mut m, 4, 0xD53BE842, 0);
    let one = m.counters[1];
    let _ = println!(output; "counter 1 is {one}");
}
