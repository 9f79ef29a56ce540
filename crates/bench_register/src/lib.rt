// The registers of a list of words found in a loop, and nothing else of an access, so that bench/ can count and time it.
#![tactic(auto)]

ghost use Rattle.std.specs.Prelude.{◌≡◌};
ghost use Rattle.bench_register.specs.Measure.{worth, total};

use rules::Register;

// What a register adds to the sum.
fn worth(r: Register) -> u64
    ensures { result ≡ worth r }
{
    match r {
        Register::Pmevcntr(m) => m,
        Register::Pmswinc => 32,
        Register::Pmicntr => 33,
        Register::Pmsicr => 35,
        Register::Other => 34,
    }
}

// The sum of a list's registers.
#[tactic(auto, unfolding(crate::specs::Measure::total))]
#[unsafe(no_mangle)]
pub extern "C" fn measure_register(list: &[u64]) -> u64
    ensures { result ≡ total list.now }
{
    let mut sum: u64 = 0;
    for &c in list {
        let r = word::decode((c % 0x100000000) as u32).register;
        sum = sum.wrapping_add(worth(r));
    }
    sum
}
