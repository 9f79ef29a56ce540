// A list of accesses run in a loop by the step with the record behind a reference, so that bench/ can count and time it: the
// loop of `bench_by_value`, in a library of its own, so that each step has one caller.
#![tactic(auto)]

ghost use Rattle.std.specs.Prelude.{◌≡◌};
ghost use Rattle.bench_by_value.specs.Measure.{started, total};

// The sum of a list's answers.
#[tactic(auto, unfolding(rules::specs::Step::run, rules::specs::Step::access, bench_by_value::specs::Measure::total))]
#[unsafe(no_mangle)]
pub extern "C" fn measure_in_place(sets: &[u64], list: &[u64], x: u64) -> u64
    ensures { result ≡ total list.now x (started sets.now) }
{
    let mut m = bench_by_value::start(sets);
    let mut sum: u64 = 0;
    for &c in list {
        m.level = ((c >> 32) % 4) as u8;
        let a = in_place::step(&mut m, (c % 0x100000000) as u32, x);
        sum = sum.wrapping_add(bench_by_value::worth(a));
    }
    sum
}
