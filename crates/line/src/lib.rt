// The line of an answer at its position, written into a buffer.
#![tactic(auto)]

ghost use Rattle.std.specs.Prelude.{◌+◌, ◌<◌, ◌≤◌};
ghost use Rattle.answer.specs.declared.Answer.{Answer};
ghost use Rattle.answer.specs.declared.Trap.{Trap};
ghost use Rattle.line.specs.Line.{text_of, line_of};
ghost use Rattle.text.specs.Wrote.{HasRoom, Wrote};

use answer::{Answer, Refusal, Trap};
use text::Writer;

fn trap(w: &mut Writer<'_>, t: Trap)
    requires { HasRoom w.old 40 }
    ensures { Wrote w.old (text_of (Answer.Trap t)) w.new × (w.new.at ≤ w.old.at + 26) }
{
    w.bytes(b"trap ");
    w.decimal(u8::from(t.target) as u64);
    w.bytes(b" ");
    w.hex(8, t.syndrome as u64);
    w.bytes(b" ");
    w.decimal(u8::from(t.cause) as u64);
}

fn value(w: &mut Writer<'_>, x: u64)
    requires { HasRoom w.old 40 }
    ensures { Wrote w.old (text_of (Answer.Value x)) w.new × (w.new.at ≤ w.old.at + 26) }
{
    w.bytes(b"value ");
    w.hex(16, x);
}

fn mrs(w: &mut Writer<'_>, x: u64, rt: u8)
    requires { HasRoom w.old 40 }
    ensures { Wrote w.old (text_of (Answer.Mrs x rt)) w.new × (w.new.at ≤ w.old.at + 26) }
{
    w.bytes(b"value ");
    w.hex(16, x);
    w.bytes(b" ");
    w.decimal(rt as u64);
}

fn refused(w: &mut Writer<'_>, r: Refusal)
    requires { HasRoom w.old 40 }
    ensures { Wrote w.old (text_of (Answer.Refused r)) w.new × (w.new.at ≤ w.old.at + 26) }
{
    w.bytes(b"refused ");
    w.decimal(u8::from(r) as u64);
}

// The text of an answer, 26 bytes at most. It is no `Display`: what `fmt` prints has no contract on its bytes, and `text_of` says
// each byte.
#[tactic(auto, unfolding(crate::specs::Line::text_of))]
fn answer_text(w: &mut Writer<'_>, a: Answer)
    requires { HasRoom w.old 40 }
    ensures { Wrote w.old (text_of a) w.new × (w.new.at ≤ w.old.at + 26) }
{
    match a {
        Answer::Ok => w.bytes(b"ok"),
        Answer::Sampled => w.bytes(b"sampled"),
        Answer::End => w.bytes(b"end"),
        Answer::Undef => w.bytes(b"undef"),
        Answer::Other => w.bytes(b"other"),
        Answer::Error => w.bytes(b"error"),
        Answer::Trap(t) => trap(w, t),
        Answer::Value(x) => value(w, x),
        Answer::Mrs { value, rt } => mrs(w, value, rt),
        Answer::Refused(r) => refused(w, r),
    }
}

// Writes the line of an answer, 32 bytes at most: its position, a space, the text and the line's end.
pub fn line(w: &mut Writer<'_>, position: u64, a: Answer)
    requires { (position < 10000) × HasRoom w.old 45 }
    ensures { Wrote w.old (line_of position a) w.new × (w.new.at ≤ w.old.at + 32) }
{
    w.decimal(position);
    w.bytes(b" ");
    answer_text(w, a);
    w.bytes(b"\n");
}
