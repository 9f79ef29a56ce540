// A list of accesses run in a loop by the step with the counters lent and the record one local of the loop, as in a session, so
// that bench/ can count and time it. The loop is that of `bench_by_value`, in a library of its own, so that each step has one
// caller.
#![tactic(auto)]

ghost use Rattle.std.specs.Prelude.{◌≡◌};
ghost use Rattle.bench_by_value.specs.Measure.{started, total};

// The sum of a list's answers.
#[tactic(auto, unfolding(rules::specs::Step::run, rules::specs::Step::access, bench_by_value::specs::Measure::total))]
#[unsafe(no_mangle)]
pub extern "C" fn measure_in_parts(sets: &[u64], list: &[u64], x: u64) -> u64
    ensures { result ≡ total list.now x (started sets.now) }
{
    let mut m = bench_by_value::start(sets);
    let mut sum: u64 = 0;
    for &c in list {
        let level = ((c >> 32) % 4) as u8;
        // the proof's borrow checker doesn't cover two fields of one record lent at once, so a copy of the event numbers is lent
        let events = m.events;
        let i = word::decode((c % 0x100000000) as u32);
        let said = access::in_parts_decoded(
            &mut m.counters,
            &events,
            m.settings,
            level,
            m.values,
            i,
            x,
        );
        m.level = level;
        m.values = said.values;
        sum = sum.wrapping_add(bench_by_value::worth(said.answer));
    }
    sum
}
