// A list of accesses run in a loop by the by-value step, so that bench/ can count and time it. The settings come from the caller
// too, so that the compiler cannot know them. The step has one caller in the library, as in `transcript`.
#![tactic(auto)]

ghost use Rattle.std.specs.Prelude.{◌≡◌};
ghost use Rattle.bench_by_value.specs.Measure.{started, worth, total};

use answer::Answer;
use machine::Machine;

// The record that a list starts from: the fresh one after set commands, each with the field in bits 39:32 and the value below.
#[tactic(auto, unfolding(fields::specs::Set::set_all))]
pub fn start(sets: &[u64]) -> Machine
    ensures { result ≡ started sets.now }
{
    let mut m = machine::fresh::fresh();
    for &e in sets {
        m = fields::set::set(((e >> 32) % 256) as u8, e % 0x100000000, m).machine;
    }
    m
}

// What an answer adds to the sum.
pub fn worth(a: Answer) -> u64
    ensures { result ≡ worth a }
{
    match a {
        Answer::Ok => 1,
        Answer::Trap(t) => t.syndrome as u64 + u8::from(t.cause) as u64,
        Answer::Value(value) | Answer::Mrs { value, .. } => value,
        Answer::Sampled
        | Answer::End
        | Answer::Undef
        | Answer::Other
        | Answer::Error
        | Answer::Refused(_) => 0,
    }
}

// The sum of a list's answers, by the by-value step. The crate `bench_by_value_c` exports it.
#[tactic(auto, unfolding(rules::specs::Step::run, rules::specs::Step::access, crate::specs::Measure::total))]
pub fn measure_by_value(sets: &[u64], list: &[u64], x: u64) -> u64
    ensures { result ≡ total list.now x (started sets.now) }
{
    let mut m = start(sets);
    let mut sum: u64 = 0;
    for &c in list {
        m.level = ((c >> 32) % 4) as u8;
        let o = access::step((c % 0x100000000) as u32, x, m);
        sum = sum.wrapping_add(worth(o.answer));
        m = o.machine;
    }
    sum
}
