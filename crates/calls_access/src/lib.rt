// An access made in the words of a caller's: settings and values are taken from them, the event counters are passed by reference
// where they stand, and what the access leaves is stored.
#![tactic(auto)]

ghost use Rattle.std.specs.Prelude.{◌≡◌};
ghost use Rattle.rules.specs.Apply.{apply};
ghost use Rattle.rules.specs.Step.{step};
ghost use Rattle.state.specs.State.{view_at};
ghost use Rattle.undo.specs.Undo.{change_of, change_by};
ghost use Rattle.words.specs.Words.{record_of, counters_of};
ghost use Rattle.calls_access.specs.Access.{Taken, Did};

use answer::Answer;
use machine::{Settings, Values};
use rules::Decision;
use state::View;
use undo::Change;

// What an access answers, and the field that is kept of it, with what that held (MODEL H8).
#[derive(Clone, Copy)]
pub struct Acted {
    pub answer: Answer,
    pub change: Change,
}

// What a decision may look at, with the event counters in the words. It is a function of its own for speed: in `access` itself
// a counter read took 6 instructions more.
fn view(m: &[u64; 143], level: u8, s: Settings, ovs: u64) -> View
    ensures { result ≡ view_at level s (counters_of m.now) ovs }
{
    state::view_at(level, s, &m[0x60..0x7F], ovs)
}

// A decision carried out in the words, from which the settings and the values were taken. The arms are those of `access::apply`,
// which takes the event numbers as an array: that would be made of the words at each access and not for an increment alone, at 89
// instructions an access (docs/PERFORMANCE.md, "A call on words").
fn apply(d: Decision, m: &mut [u64; 143], s: Settings, v: Values) -> Acted
    requires { Taken m.old s v }
    ensures { Did (apply d (record_of m.old)) (change_of d (record_of m.old))
        m.old
        result
        m.new }
{
    match d {
        Decision::Says(a) => Acted {
            answer: a,
            change: undo::UNCHANGED,
        },
        Decision::Read { place, rt } => Acted {
            answer: Answer::Mrs {
                value: places::shown(&m[0x60..0x7F], s, v, place),
                rt,
            },
            change: undo::UNCHANGED,
        },
        Decision::Write { place, value } => {
            let change = undo::of_place(&m[0x60..0x7F], v, place);
            let after = places::put(&mut m[0x60..0x7F], s, v, place, value);
            words::keep::values(m, after);
            Acted {
                answer: Answer::Ok,
                change,
            }
        }
        Decision::Add { mask } => {
            let events = words::decode::events(m);
            let ovs = counters::increment(&mut m[0x60..0x7F], &events, s, mask, v.ovs);
            words::keep::values(m, Values { ovs, ..v });
            Acted {
                answer: Answer::Ok,
                change: undo::of_increments(mask),
            }
        }
    }
}

// The access with word w and operand x to the record that the words hold.
pub fn access(m: &mut [u64; 143], w: u32, x: u64) -> Acted
    ensures { Did (step w x (record_of m.old)) (change_by w x (record_of m.old))
        m.old
        result
        m.new }
{
    let s = words::decode::settings(m);
    let v = words::decode::values(m);
    let level = words::decode::level(m);
    let d = decide::decide(view(m, level, s, v.ovs), w, x);
    apply(d, m, s, v)
}
