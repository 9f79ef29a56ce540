// What an external access, a tick or a member of the sample population is to do, decided from a view in which there is no counter
// and no overflow flag.
#![tactic(auto)]

mod reach; // reach.rt: how far an access at an offset gets

ghost use Rattle.std.specs.Prelude.{◌≡◌};
ghost use Rattle.rules.specs.External.{read_of, write_of, tick_of, member_of, effect_of, judge};

use answer::Answer;
use machine::Settings;
use rules::external::{Effect, Reach, Request};
use state::View;

// What a read does that gets so far.
fn read_of(t: Reach, s: Settings) -> Effect
    ensures { result ≡ read_of t s }
{
    match t {
        Reach::Other => Effect::Says(Answer::Other),
        Reach::Ignored => Effect::Says(Answer::Value(0)),
        Reach::Error => Effect::Says(Answer::Error),
        Reach::Pmcntenset => Effect::Says(Answer::Value(flags::shown_of(true, s, s.cnten))),
        Reach::Pmovsclr => Effect::ReadOvs,
        Reach::Pmovsset => Effect::ReadOvs,
    }
}

// What a write of x does that gets so far.
fn write_of(t: Reach, x: u64, s: Settings) -> Effect
    ensures { result ≡ write_of t x s }
{
    match t {
        Reach::Other => Effect::Says(Answer::Other),
        Reach::Ignored => Effect::Says(Answer::Ok),
        Reach::Error => Effect::Says(Answer::Error),
        Reach::Pmcntenset => Effect::Enables(flags::raised(flags::shown_of(true, s, x), s.cnten)),
        Reach::Pmovsclr => Effect::ClearOvs {
            mask: flags::shown_of(false, s, x),
        },
        Reach::Pmovsset => Effect::SetOvs {
            mask: flags::shown_of(false, s, x),
        },
    }
}

// What a tick does.
fn tick_of(prohibited: bool, s: Settings) -> Effect
    ensures { result ≡ tick_of prohibited s }
{
    if s.features.icntr & ((s.cnten >> 32) % 2 == 1) & !prohibited {
        return Effect::Count;
    }
    Effect::Says(Answer::Ok)
}

// What a member of the sample population does.
fn member_of(draw: u8, s: Settings) -> Effect
    ensures { result ≡ member_of draw s }
{
    if s.features.spe & s.sampling.profiling {
        return Effect::Sample(draw);
    }
    Effect::Says(Answer::Ok)
}

// What is requested of a consistent record.
#[tactic(auto, unfolding(rules::specs::External::effect_of))]
fn effect_of(q: Request, s: Settings) -> Effect
    ensures { result ≡ effect_of q s }
{
    match q {
        Request::Read(offset) => read_of(reach::reach(false, offset, s), s),
        Request::Write { offset, value } => write_of(reach::reach(true, offset, s), value, s),
        Request::Tick(prohibited) => tick_of(prohibited, s),
        Request::Member(draw) => member_of(draw, s),
    }
}

// What is requested of any record: the state test comes before all else.
pub fn judge(v: View, q: Request) -> Effect
    ensures { result ≡ judge v q }
{
    match state::verdict_of(v) {
        Ok(()) => effect_of(q, v.settings),
        Err(n) => Effect::Says(Answer::Refused(n)),
    }
}
