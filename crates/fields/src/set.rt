// The set and level commands of a session. A refused one leaves the record as it was.
ghost use Rattle.std.specs.Prelude.{◌≡◌};
ghost use Rattle.fields.specs.Set.{set, set_level};

use crate::largest;
use answer::{Answer, Refusal};
use machine::{Machine, Outcome};

// The set command: v to the field with number f. Refused with 3 where there is none, with 4 where v exceeds its largest value;
// of the overflow flags, bit 31 counts as above it. Where it turns profiling on, with SPE, profiling begins.
#[tactic(auto, unfolding(crate::specs::Set::set))]
pub fn set(f: u8, v: u64, m: Machine) -> Outcome
    ensures { result ≡ set f v m }
{
    let Some(most) = largest::largest(f) else {
        return Outcome {
            answer: Answer::Refused(Refusal::UnknownField),
            machine: m,
        };
    };
    if ((f == 0x37) & bits::bit(31, v)) | (most < v) {
        return Outcome {
            answer: Answer::Refused(Refusal::ValueTooLarge),
            machine: m,
        };
    }
    let profiling = m.settings.sampling.profiling;
    let turns_on = (f == 0x83) & (v == 1) & !profiling & m.settings.features.spe;
    let ernd = m.settings.features.ernd;
    let begun = pmsicr::started(ernd, m.settings.sampling.reload, m.values.pmsicr);
    let mut next = m;
    next.settings = store::settings(m.settings, f, v);
    next.events = store::events(m.events, f, v);
    next.counters = store::counters(m.counters, f, v);
    next.values = store::values(m.values, f, v);
    next.values.pmsicr = bits::pick(turns_on, begun, next.values.pmsicr);
    Outcome {
        answer: Answer::Ok,
        machine: next,
    }
}

// The level command. Refused with 5 where l exceeds 3.
#[tactic(auto, unfolding(crate::specs::Set::set_level))]
pub fn set_level(l: u8, m: Machine) -> Outcome
    ensures { result ≡ set_level l m }
{
    if largest::LEVEL < l {
        return Outcome {
            answer: Answer::Refused(Refusal::LevelTooLarge),
            machine: m,
        };
    }
    let mut next = m;
    next.level = l;
    Outcome {
        answer: Answer::Ok,
        machine: next,
    }
}
