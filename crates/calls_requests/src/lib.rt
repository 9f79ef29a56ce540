// External accesses, ticks and members made in the words of a caller's.
#![tactic(auto)]

ghost use Rattle.rules.specs.External.{judge, enact};
ghost use Rattle.state.specs.State.{view_of};
ghost use Rattle.words.specs.Words.{record_of};
ghost use Rattle.words.specs.Call.{Called};

use answer::Answer;
use rules::external::Request;

// What a request answers and does to the record that the words hold.
pub fn respond(m: &mut [u64; 143], q: Request) -> Answer
    ensures { Called (enact (judge (view_of (record_of m.old)) q) (record_of m.old))
        m.old
        result
        m.new }
{
    let s = words::decode::settings(m);
    let v = words::decode::values(m);
    let level = words::decode::level(m);
    let t = external_apply::in_parts(q, level, s, &m[0x60..0x7F], v);
    m[0x34] = t.cnten;
    words::keep::values(m, t.values);
    t.answer
}
