// What a command does to the undo list, whose words are lent: it is listed, empties the list, or takes the latest step back.
#![tactic(auto)]

ghost use Rattle.std.specs.Prelude.{cond, [], ◌≡◌};
ghost use Rattle.answer.specs.Refused.{is_refused};
ghost use Rattle.undo_words.specs.Journal.{entries, rest};
ghost use Rattle.undo_list.specs.History.{back_from};
ghost use Rattle.undo_list.specs.Words.{earlier_by, response_by, noted};

use answer::{Answer, Refusal};
use machine::{Machine, Outcome};
use undo::Undo;
use undo_words::Entry;

// Lists a command that answers a and of which u is kept, with a tag, unless it was refused.
pub fn note(a: Answer, u: Undo, tag: u32, list: &mut [u64; 194])
    ensures { entries list.new ≡ noted a u tag (entries list.old) }
{
    if !a.is_refused() {
        undo_words::remember(list, Entry { undo: u, tag });
    }
}

// The outcome of a command by value, of which u is kept, listed unless it was refused.
pub fn listed(o: Outcome, u: Undo, list: &mut [u64; 194]) -> Outcome
    ensures { (result ≡ o) × (entries list.new ≡ noted o.answer u 0 (entries list.old)) }
{
    note(o.answer, u, 0, list);
    o
}

// Empties the list after a set command that answers a, unless it was refused.
pub fn forget(a: Answer, list: &mut [u64; 194])
    ensures { entries list.new ≡ cond (is_refused a) (entries list.old) [] }
{
    if a.is_refused() {
        return;
    }
    undo_words::empty(list);
}

// The step back: the record before the latest listed command, or refused with 18 where none is listed.
pub fn back(r: Machine, list: &mut [u64; 194]) -> Outcome
    ensures { (response_by result list.new ≡ back_from r (earlier_by (entries list.old) r))
        × (entries list.new ≡ rest (entries list.old)) }
{
    match undo_words::recall(list) {
        None => Outcome {
            answer: Answer::Refused(Refusal::NothingToUndo),
            machine: r,
        },
        Some(e) => Outcome {
            answer: Answer::Ok,
            machine: undo::undone(e.undo, r),
        },
    }
}
