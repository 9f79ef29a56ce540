// The access with the record lent and changed there, so that the caller holds one record. Thin functions over the by-value step,
// which works on a copy of its own during the call.
#![tactic(auto)]

ghost use Rattle.std.specs.Prelude.{◌≡◌};
ghost use Rattle.rules.specs.Step.{step};

use answer::Answer;
use machine::{Machine, Outcome};

// MODEL X8: the access with word w and operand x to the record behind the reference.
pub fn step(r: &mut Machine, w: u32, x: u64) -> Answer
    ensures { (result ≡ (step w x r.old).answer) × (r.new ≡ (step w x r.old).machine) }
{
    let o = access::step(w, x, *r);
    *r = o.machine;
    o.answer
}

// The same for a caller that has the record by value: the record is lent to `step`, and handed back with the answer.
pub fn owned(mut r: Machine, w: u32, x: u64) -> Outcome
    ensures { result ≡ step w x r }
{
    let answer = step(&mut r, w, x);
    Outcome { answer, machine: r }
}
