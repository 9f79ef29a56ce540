// The access: decide, by a view in which there is no counter, then apply. `in_parts` has the counters of a record lent and
// changed there, and `in_parts_decoded` so of a word that is taken apart already; `step` takes and returns a record by value.
#![tactic(auto)]

ghost use Rattle.std.specs.Prelude.{◌≡◌};
ghost use Rattle.access.specs.InParts.{InParts, Applied};
ghost use Rattle.machine.specs.Machine.{machine_of};
ghost use Rattle.rules.specs.Step.{step, step_decoded};
ghost use Rattle.undo.specs.Undo.{change_by, change_decoded};

use answer::Answer;
use machine::{Machine, Outcome, Settings, Values};
use rules::{Decision, Instruction};
use undo::Change;

// What an access answers, what the record holds after it beside the event counters, and the field that is kept of it, with what
// that held (MODEL H8).
#[derive(Clone, Copy)]
pub struct Said {
    pub answer: Answer,
    pub values: Values,
    pub change: Change,
}

// What was decided, done to the counters that are lent. The level plays no part.
#[tactic(auto, unfolding(rules::specs::Apply::apply))]
fn apply(d: Decision, counters: &mut [u64], events: &[u16], s: Settings, v: Values) -> Said
    ensures { Applied d s events.now counters.old v result counters.new }
{
    let unchanged = Said {
        answer: Answer::Ok,
        values: v,
        change: undo::UNCHANGED,
    };
    match d {
        Decision::Says(answer) => Said {
            answer,
            ..unchanged
        },
        Decision::Read { place, rt } => Said {
            answer: Answer::Mrs {
                value: places::shown(counters, s, v, place),
                rt,
            },
            ..unchanged
        },
        Decision::Write { place, value } => Said {
            change: undo::of_place(counters, v, place),
            values: places::put(counters, s, v, place, value),
            ..unchanged
        },
        Decision::Add { mask } => Said {
            values: Values {
                ovs: counters::increment(counters, events, s, mask, v.ovs),
                ..v
            },
            change: undo::of_increments(mask),
            ..unchanged
        },
    }
}

// The access with instruction i, a word taken apart, and operand x to the record with these parts, its counters lent. The parts
// are parameters of their own, and not one struct: MODEL X4 lends the counters alone, and the theorems on calls (MODEL M10,
// `calls-noninterference` of proofs/DecodedCalls.antt and proofs/PartsCalls.antt) are of calls with just these arguments.
#[tactic(auto, unfolding(state::specs::State::view_of))]
pub fn in_parts_decoded(
    counters: &mut [u64; 31],
    events: &[u16; 31],
    s: Settings,
    level: u8,
    v: Values,
    i: Instruction,
    x: u64,
) -> Said
    ensures { InParts
        (step_decoded i x (machine_of level s events.now counters.old v))
        (change_decoded i x (machine_of level s events.now counters.old v))
        result
        counters.new }
{
    let d = decide::decide_decoded(state::view_at(level, s, counters, v.ovs), i, x);
    apply(d, counters, events, s, v)
}

// The access with word w and operand x to the record with these parts, its counters lent.
#[tactic(auto, unfolding(state::specs::State::view_of, rules::specs::Step::step))]
pub fn in_parts(
    counters: &mut [u64; 31],
    events: &[u16; 31],
    s: Settings,
    level: u8,
    v: Values,
    w: u32,
    x: u64,
) -> Said
    ensures { InParts
        (step w x (machine_of level s events.now counters.old v))
        (change_by w x (machine_of level s events.now counters.old v))
        result
        counters.new }
{
    let d = decide::decide(state::view_at(level, s, counters, v.ovs), w, x);
    apply(d, counters, events, s, v)
}

// The same access to a record by value.
pub fn step(w: u32, x: u64, mut r: Machine) -> Outcome
    ensures { result ≡ step w x r }
{
    // the proof's borrow checker doesn't cover two fields of one record lent at once, so a copy of the event numbers is lent
    let events = r.events;
    let said = in_parts(
        &mut r.counters,
        &events,
        r.settings,
        r.level,
        r.values,
        w,
        x,
    );
    r.values = said.values;
    Outcome {
        answer: said.answer,
        machine: r,
    }
}
