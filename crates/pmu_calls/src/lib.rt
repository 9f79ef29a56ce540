// The model call by call, for programs in C and Rust: a static library's exports on words that the caller owns, all but the
// access, which the crate `pmu_access` exports. bindings/pmu_calls.h declares them. Whatever stands in the words, every call
// answers. These list nothing; listed.rt has those that do.
#![tactic(auto)]

pub mod listed; // listed.rt: the calls that list what they did, and the step back

ghost use Rattle.std.specs.Prelude.{◌≡◌, replicate};
ghost use Rattle.calls.specs.Replied.{Replied, tick_call};
ghost use Rattle.calls_fields.specs.Fields.{words_set, words_levelled};
ghost use Rattle.fields.specs.Set.{set, set_level};
ghost use Rattle.machine.specs.Machine.{fresh};
ghost use Rattle.rules.specs.External.{judge, enact, external_read, external_write, member};
ghost use Rattle.state.specs.State.{view_of};
ghost use Rattle.words.specs.Call.{call_of, Called};
ghost use Rattle.words.specs.Put.{put};
ghost use Rattle.words.specs.Words.{record_of, word_count};

use answer::{Answer, Refusal};
use reply::Reply;
use rules::external::Request;

// A request. Refused with 10 first where a word is above what a record by value can have.
fn respond(m: &mut [u64; 143], q: Request) -> Answer
    ensures { Called (call_of (λ r. enact (judge (view_of r) q) r) m.old) m.old result m.new }
{
    if words::untyped::untyped(m) {
        return Answer::Refused(Refusal::FieldTooLarge);
    }
    calls_requests::respond(m, q)
}

// A tick, or refused with 4 where its flag exceeds 1.
fn tick(m: &mut [u64; 143], prohibited: u8) -> Answer
    ensures { Called (tick_call prohibited m.old) m.old result m.new }
{
    if 1 < prohibited {
        return Answer::Refused(Refusal::ValueTooLarge);
    }
    respond(m, Request::Tick(prohibited == 1))
}

// The fresh record: every word 0.
#[unsafe(no_mangle)]
pub extern "C" fn pmu_fresh(m: &mut [u64; 143])
    ensures { (m.new ≡ replicate word_count 0) × (record_of m.new ≡ fresh) }
{
    calls_fields::fresh(m);
}

// The set command.
#[unsafe(no_mangle)]
pub extern "C" fn pmu_set(m: &mut [u64; 143], field: u8, value: u64) -> Reply
    ensures { Replied (set field value (record_of m.old)) (words_set field value)
        m.old
        result
        m.new }
{
    Reply::from(calls_fields::set(m, field, value))
}

// The level command.
#[unsafe(no_mangle)]
pub extern "C" fn pmu_level(m: &mut [u64; 143], level: u8) -> Reply
    ensures { Replied (set_level level (record_of m.old)) words_levelled m.old result m.new }
{
    Reply::from(calls_fields::level(m, level))
}

// The external read at an offset.
#[unsafe(no_mangle)]
pub extern "C" fn pmu_external_read(m: &mut [u64; 143], offset: u16) -> Reply
    ensures { Replied (call_of (external_read offset) m.old) put m.old result m.new }
{
    Reply::from(respond(m, Request::Read(offset)))
}

// The external write of a value at an offset.
#[unsafe(no_mangle)]
pub extern "C" fn pmu_external_write(m: &mut [u64; 143], offset: u16, value: u64) -> Reply
    ensures { Replied (call_of (external_write offset value) m.old) put m.old result m.new }
{
    Reply::from(respond(m, Request::Write { offset, value }))
}

// One executed instruction, where counting may be prohibited.
#[unsafe(no_mangle)]
pub extern "C" fn pmu_tick(m: &mut [u64; 143], prohibited: u8) -> Reply
    ensures { Replied (tick_call prohibited m.old) put m.old result m.new }
{
    Reply::from(tick(m, prohibited))
}

// A member of the sample population, with a draw.
#[unsafe(no_mangle)]
pub extern "C" fn pmu_sample(m: &mut [u64; 143], draw: u8) -> Reply
    ensures { Replied (call_of (member draw) m.old) put m.old result m.new }
{
    Reply::from(respond(m, Request::Member(draw)))
}
