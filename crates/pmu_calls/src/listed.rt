// The calls that also list what they did, in words of the caller's for the undo list, and the step back. What is listed, what
// empties the list and what leaves it alone is as in a session. Each has a twin without a list in lib.rt: both are C's
// (bindings/pmu_calls.h).
ghost use Rattle.std.specs.Prelude.{◌≡◌};
ghost use Rattle.calls.specs.Listed.{Listed, Emptied, SteppedBack};
ghost use Rattle.calls.specs.Replied.{Replied, tick_call};
ghost use Rattle.calls_fields.specs.Fields.{words_set, words_levelled};
ghost use Rattle.fields.specs.Set.{set, set_level};
ghost use Rattle.rules.specs.External.{external_write, member};
ghost use Rattle.undo.specs.Undo.{unchanged, held, undo_of};
ghost use Rattle.words.specs.Call.{call_of};
ghost use Rattle.words.specs.Put.{put};
ghost use Rattle.words.specs.Words.{word, record_of};

use answer::Refusal;
use reply::Reply;
use rules::external::Request;
use undo::Undo;
use words::decode;

// What is kept of a call, from the words before it: a field and what it held, the level and the overflow flags.
#[tactic(auto, unfolding(words::specs::Words::record_of))]
fn kept(m: &[u64; 143], field: u8, old: u64) -> Undo
    ensures { result ≡ undo_of (held field old) (record_of m.now) }
{
    undo::kept(field, old, decode::level(m), m[0x37])
}

// The set command, which empties the list unless it is refused.
#[unsafe(no_mangle)]
pub extern "C" fn pmu_set_listed(
    m: &mut [u64; 143],
    list: &mut [u64; 194],
    field: u8,
    value: u64,
) -> Reply
    ensures { Replied (set field value (record_of m.old)) (words_set field value)
        m.old
        result
        m.new
        × Emptied (set field value (record_of m.old))
        (record_of m.old)
        list.old
        list.new }
{
    let a = calls_fields::set(m, field, value);
    undo_list::forget(a, list);
    Reply::from(a)
}

// The level command, listed.
#[unsafe(no_mangle)]
pub extern "C" fn pmu_level_listed(m: &mut [u64; 143], list: &mut [u64; 194], level: u8) -> Reply
    ensures { Replied (set_level level (record_of m.old)) words_levelled m.old result m.new
        × Listed (set_level level (record_of m.old))
        unchanged
        (record_of m.old)
        list.old
        list.new }
{
    let u = kept(m, undo::NOTHING, 0);
    let a = calls_fields::level(m, level);
    undo_list::note(a, u, 0, list);
    Reply::from(a)
}

// The external write, listed.
#[unsafe(no_mangle)]
pub extern "C" fn pmu_external_write_listed(
    m: &mut [u64; 143],
    list: &mut [u64; 194],
    offset: u16,
    value: u64,
) -> Reply
    ensures { Replied (call_of (external_write offset value) m.old) put m.old result m.new
        × Listed (call_of (external_write offset value) m.old)
        (held 0x34 (word m.old 0x34))
        (record_of m.old)
        list.old
        list.new }
{
    let u = kept(m, 0x34, m[0x34]);
    let a = crate::respond(m, Request::Write { offset, value });
    undo_list::note(a, u, 0, list);
    Reply::from(a)
}

// The tick, listed.
#[unsafe(no_mangle)]
pub extern "C" fn pmu_tick_listed(
    m: &mut [u64; 143],
    list: &mut [u64; 194],
    prohibited: u8,
) -> Reply
    ensures { Replied (tick_call prohibited m.old) put m.old result m.new
        × Listed (tick_call prohibited m.old)
        (held 0x7F (word m.old 0x7F))
        (record_of m.old)
        list.old
        list.new }
{
    let u = kept(m, 0x7F, m[0x7F]);
    let a = crate::tick(m, prohibited);
    undo_list::note(a, u, 0, list);
    Reply::from(a)
}

// The member of the sample population, listed.
#[unsafe(no_mangle)]
pub extern "C" fn pmu_sample_listed(m: &mut [u64; 143], list: &mut [u64; 194], draw: u8) -> Reply
    ensures { Replied (call_of (member draw) m.old) put m.old result m.new
        × Listed (call_of (member draw) m.old)
        (held 0x8C (word m.old 0x8C))
        (record_of m.old)
        list.old
        list.new }
{
    let u = kept(m, 0x8C, m[0x8C]);
    let a = crate::respond(m, Request::Member(draw));
    undo_list::note(a, u, 0, list);
    Reply::from(a)
}

// The step back: what was kept of the latest listed call is put back. Refused with 18 where none is listed.
#[unsafe(no_mangle)]
pub extern "C" fn pmu_back(m: &mut [u64; 143], list: &mut [u64; 194]) -> Reply
    ensures { SteppedBack m.old list.old result m.new list.new }
{
    match undo_words::recall(list) {
        None => reply::refused(Refusal::NothingToUndo),
        Some(e) => {
            calls_fields::back::undone(m, e.undo);
            reply::done()
        }
    }
}
