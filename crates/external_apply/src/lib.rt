// External accesses, the tick and members of the sample population: what was decided about them (`external_decide`), done.
#![tactic(auto)]

ghost use Rattle.std.specs.Prelude.{◌≡◌};
ghost use Rattle.external_apply.specs.InParts.{Enacted, Responded};
ghost use Rattle.rules.specs.declared.external.Effect.{Effect};
ghost use Rattle.rules.specs.External.{ovs_counted, judge, enact};
ghost use Rattle.rules.specs.External.{external_read, external_write, tick, member};
ghost use Rattle.state.specs.State.{view_of};

use answer::Answer;
use machine::{Machine, Outcome, Settings, Values};
use rules::external::{Effect, Request};

// What a request answers, and the counter enables and the values beside the event counters after it. It changes nothing else.
#[derive(Clone, Copy)]
pub struct Told {
    pub answer: Answer,
    pub cnten: u64,
    pub values: Values,
}

// The overflow flags after the instruction counter, which held y, went up.
fn ovs_counted(y: u64, ovs: u64) -> u64
    ensures { result ≡ ovs_counted y ovs }
{
    flags::raised(bits::pick(y == 0xFFFFFFFFFFFFFFFF, 0x100000000, 0), ovs)
}

// A member that counts.
fn sample(draw: u8, s: Settings, v: Values) -> Told
    ensures { Enacted (Effect.Sample draw) s v result }
{
    let m = pmsicr::counted(
        s.features.ernd,
        s.sampling.rnd,
        s.sampling.reload,
        draw as u64,
        v.pmsicr,
    );
    Told {
        answer: if m.selected {
            Answer::Sampled
        } else {
            Answer::Ok
        },
        cnten: s.cnten,
        values: Values {
            pmsicr: m.pmsicr,
            ..v
        },
    }
}

// What an effect answers and does.
#[tactic(auto, unfolding(store::specs::Store::store, store::specs::Store::store_settings))]
fn enact(e: Effect, s: Settings, v: Values) -> Told
    ensures { Enacted e s v result }
{
    let unchanged = Told {
        answer: Answer::Ok,
        cnten: s.cnten,
        values: v,
    };
    match e {
        Effect::Says(answer) => Told {
            answer,
            ..unchanged
        },
        Effect::Enables(cnten) => Told { cnten, ..unchanged },
        Effect::ReadOvs => Told {
            answer: Answer::Value(flags::shown_of(false, s, v.ovs)),
            ..unchanged
        },
        Effect::ClearOvs { mask } => Told {
            values: Values {
                ovs: flags::lowered(mask, v.ovs),
                ..v
            },
            ..unchanged
        },
        Effect::SetOvs { mask } => Told {
            values: Values {
                ovs: flags::raised(mask, v.ovs),
                ..v
            },
            ..unchanged
        },
        Effect::Count => Told {
            values: Values {
                ovs: ovs_counted(v.instructions, v.ovs),
                instructions: v.instructions.wrapping_add(1),
                ..v
            },
            ..unchanged
        },
        Effect::Sample(draw) => sample(draw, s, v),
    }
}

// What a request answers and does to the record with these parts.
pub fn in_parts(q: Request, level: u8, s: Settings, counters: &[u64], v: Values) -> Told
    ensures { Responded q level s counters.now v result }
{
    let view = state::view_at(level, s, counters, v.ovs);
    enact(external_decide::judge(view, q), s, v)
}

// The same with a record by value. The four calls below share this one, so that the compiled code has its parts once, in one
// place.
fn respond(q: Request, mut r: Machine) -> Outcome
    ensures { result ≡ enact (judge (view_of r) q) r }
{
    let told = in_parts(q, r.level, r.settings, &r.counters, r.values);
    r.settings.cnten = told.cnten;
    r.values = told.values;
    Outcome {
        answer: told.answer,
        machine: r,
    }
}

// An external read at an offset.
#[tactic(auto, unfolding(rules::specs::External::external_read))]
pub fn read(offset: u16, r: Machine) -> Outcome
    ensures { result ≡ external_read offset r }
{
    respond(Request::Read(offset), r)
}

// An external write of x at an offset.
#[tactic(auto, unfolding(rules::specs::External::external_write))]
pub fn write(offset: u16, x: u64, r: Machine) -> Outcome
    ensures { result ≡ external_write offset x r }
{
    respond(Request::Write { offset, value: x }, r)
}

// One executed instruction, where counting may be prohibited.
#[tactic(auto, unfolding(rules::specs::External::tick))]
pub fn tick(prohibited: bool, r: Machine) -> Outcome
    ensures { result ≡ tick prohibited r }
{
    respond(Request::Tick(prohibited), r)
}

// A member of the sample population, with a draw.
#[tactic(auto, unfolding(rules::specs::External::member))]
pub fn member(draw: u8, r: Machine) -> Outcome
    ensures { result ≡ member draw r }
{
    respond(Request::Member(draw), r)
}
