// The loop of `bench_by_value` as the export of a static library, for bench/: that crate is a library, for the other loops.
#![tactic(auto)]

ghost use Rattle.std.specs.Prelude.{◌≡◌};
ghost use Rattle.bench_by_value.specs.Measure.{started, total};

// The sum of a list's answers, by the by-value step.
#[unsafe(no_mangle)]
pub extern "C" fn measure_by_value(sets: &[u64], list: &[u64], x: u64) -> u64
    ensures { result ≡ total list.now x (started sets.now) }
{
    bench_by_value::measure_by_value(sets, list, x)
}
