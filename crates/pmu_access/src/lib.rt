// The access of the model call by call, for programs in C and Rust: a static library of its own, so that the code that decides is
// there once, for these two exports, with a list and without: both are C's, and bindings/pmu_calls.h declares them. Whatever
// stands in the words, every call answers.
#![tactic(auto)]

ghost use Rattle.calls.specs.Listed.{Listed};
ghost use Rattle.calls.specs.Replied.{Replied};
ghost use Rattle.rules.specs.Step.{step};
ghost use Rattle.undo.specs.Undo.{change_by};
ghost use Rattle.words.specs.Call.{call_of};
ghost use Rattle.words.specs.Put.{put};
ghost use Rattle.words.specs.Words.{record_of};

use answer::Refusal;
use reply::Reply;
use undo::Undo;

// The access with an instruction word and an operand.
#[unsafe(no_mangle)]
pub extern "C" fn pmu_access(m: &mut [u64; 143], word: u32, operand: u64) -> Reply
    ensures { Replied (call_of (step word operand) m.old) put m.old result m.new }
{
    if words::untyped::untyped(m) {
        return reply::refused(Refusal::FieldTooLarge);
    }
    Reply::from(calls_access::access(m, word, operand).answer)
}

// The same, listed in the words of an undo list unless it is refused.
#[unsafe(no_mangle)]
pub extern "C" fn pmu_access_listed(
    m: &mut [u64; 143],
    list: &mut [u64; 194],
    word: u32,
    operand: u64,
) -> Reply
    ensures { Replied (call_of (step word operand) m.old) put m.old result m.new
        × Listed (call_of (step word operand) m.old)
        (change_by word operand (record_of m.old))
        (record_of m.old)
        list.old
        list.new }
{
    if words::untyped::untyped(m) {
        return reply::refused(Refusal::FieldTooLarge);
    }
    let level = words::decode::level(m);
    let ovs = m[0x37];
    let acted = calls_access::access(m, word, operand);
    let u = Undo {
        change: acted.change,
        level,
        ovs,
    };
    undo_list::note(acted.answer, u, 0, list);
    Reply::from(acted.answer)
}
