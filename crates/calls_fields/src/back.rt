// What was kept of a command, put back into the words.
ghost use Rattle.std.specs.Prelude.{◌≡◌};
ghost use Rattle.undo.specs.Undo.{counters_before, undone};
ghost use Rattle.words.specs.Words.{word, on, record_of, events_of, counters_of};
ghost use Rattle.words.specs.Put.{put_counters};
ghost use Rattle.calls_fields.specs.Fields.{words_back};

use machine::Values;
use undo::{Change, Undo};
use words::decode;

// The event counters with what was kept of them put back: the one that was written, or 1 less in those that took an increment.
fn counters(c: Change, m: &mut [u64; 143])
    ensures { m.new
        ≡ put_counters
        (counters_before c (on 0x01 (word m.old)) (events_of m.old) (counters_of m.old))
        m.old }
{
    match c.field {
        undo::INCREMENTS => {
            let p5 = decode::on(m, 0x01);
            let events = decode::events(m);
            counters::decrement(&mut m[0x60..0x7F], &events, p5, c.old);
        }
        0x60..=0x7E => m[c.field as usize] = c.old,
        _ => {}
    }
}

// The record with what was kept of a command put back.
pub fn undone(m: &mut [u64; 143], u: Undo)
    ensures { (record_of m.new ≡ undone u (record_of m.old))
        × (m.new ≡ words_back (undone u (record_of m.old)) m.old) }
{
    let change = u.change;
    let kept = store::values(decode::values(m), change.field, change.old);
    let cnten = bits::pick(change.field == 0x34, change.old, m[0x34]);
    counters(change, m);
    m[0x34] = cnten;
    words::keep::values(m, Values { ovs: u.ovs, ..kept });
    m[0x8E] = u.level as u64;
}
