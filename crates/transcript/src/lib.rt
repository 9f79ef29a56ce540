// The whole session: commands out of bytes, each run on the record, its answer as a line.
#![tactic(auto)]

ghost use Rattle.std.specs.Prelude.{◌≡◌, ◌≤◌, length};
ghost use Rattle.text.specs.Wrote.{HasRoom, Wrote};
ghost use Rattle.machine.specs.Machine.{with_counters};
ghost use Rattle.machine.specs.Outcome.{says};
ghost use Rattle.execute.specs.Execute.{obey};
ghost use Rattle.undo_list.specs.Words.{history_by, response_by};
ghost use Rattle.form.specs.Form.{longest};
ghost use Rattle.transcript.specs.Session.{lines_from, answers_in, room, result_of, buffer_of};

use answer::{Answer, Refusal};
use command::Command;
use command::reading::Commands;
use form::Form;
use machine::Machine;
use text::Writer;

// The bytes that any session's output fits into: `room` of specs/Session.antt.
pub const ROOM: usize = 65600;

// Runs what was read, a command or the refusal that was met in reading it, on the record and on the undo list, whose words are
// lent. The record's counters are apart from it, and its event numbers are copied for an access, so that the record is lent to
// nobody: a session's commands cost fewer instructions so (docs/PERFORMANCE.md).
#[inline(always)]
fn obey(
    read: Result<Command, Refusal>,
    m: &mut Machine,
    counters: &mut [u64; 31],
    list: &mut [u64; 194],
) -> Answer
    ensures { response_by (says result (with_counters counters.new m.new)) list.new
        ≡ obey read (history_by (with_counters counters.old m.old) list.old) }
{
    match read {
        Ok(Command::Access { word, operand }) => {
            let events = m.events;
            let said = execute::access_decoded(
                counters,
                &events,
                m.settings,
                m.level,
                m.values,
                word::decode(word),
                operand,
                list,
            );
            m.values = said.values;
            said.answer
        }
        _ => {
            let mut r = *m;
            let own = *counters;
            r.counters = own;
            let o = execute::other(read, r, list);
            let next = o.machine;
            let left = next.counters;
            *m = next;
            *counters = left;
            o.answer
        }
    }
}

// Writes the lines of the commands in bytes of a form, not too many, from the fresh record on, with nothing listed.
fn write_lines(w: &mut Writer<'_>, f: Form, input: &[u8])
    requires { (length input.now ≤ longest) × HasRoom w.old room }
    ensures { Wrote w.old (lines_from 1 (answers_in f input.now)) w.new × (w.new.at ≤ length w.old.out.now) }
{
    let mut m = machine::fresh::fresh();
    let mut counters = m.counters;
    let mut list = [0u64; 194];
    let mut position: u64 = 1;
    for read in Commands::new(f, input) {
        let a = obey(read, &mut m, &mut counters, &mut list);
        line::line(w, position, a);
        position += 1;
    }
}

// The output buffer is too short for what a session can print.
#[derive(Clone, Copy)]
pub struct TooShort;

// Runs a session's bytes from the fresh record, and writes its lines to the front of the buffer. Says how many bytes they have.
// A buffer that is too short is left alone.
pub fn session(input: &[u8], out: &mut [u8]) -> Result<usize, TooShort>
    ensures { (result ≡ result_of input.now out.old)
        × (out.new ≡ buffer_of input.now out.old) }
{
    if out.len() < ROOM {
        return Err(TooShort);
    }
    let f = form::form_of(input);
    let start = form::body_start(input);
    let mut w = Writer::new(out);
    if 4096 < input.len() - start {
        line::line(&mut w, 0, Answer::Refused(Refusal::SessionTooLong));
    } else {
        write_lines(&mut w, f, &input[start..]);
    }
    Ok(w.place())
}
