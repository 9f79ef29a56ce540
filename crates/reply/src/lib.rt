// An answer in numbers, for C and Rust: a struct of 16 bytes, which x86-64 passes back in two registers.
#![tactic(auto)]

ghost use Rattle.std.specs.Prelude.{◌≡◌};
ghost use Rattle.answer.specs.declared.Answer.{Answer};
ghost use Rattle.reply.specs.Reply.{reply_of};

use answer::{Answer, Refusal};

// The kind of an answer; the level that takes a trap, the number of Rt or that of a refusal; the cause of a trap; and a value
// read or the syndrome of a trap. specs/Reply.antt has the numbers. What an answer has not is 0.
#[repr(C)]
#[derive(Clone, Copy)]
pub struct Reply {
    pub kind: u32,
    pub detail: u16,
    pub cause: u16,
    pub value: u64,
}

// A reply that is its kind alone.
fn plain(kind: u32) -> Reply
    ensures { result ≡ record { kind = kind; detail = 0; cause = 0; value = 0 } }
{
    Reply {
        kind: kind,
        detail: 0,
        cause: 0,
        value: 0,
    }
}

// An answer in numbers.
impl From<Answer> for Reply {
    ghost from_gives = { λ a r. r ≡ reply_of a };

    fn from(a: Answer) -> Reply {
        match a {
            Answer::Ok => plain(1),
            Answer::Sampled => plain(2),
            Answer::End => plain(3),
            Answer::Undef => plain(4),
            Answer::Other => plain(5),
            Answer::Error => plain(6),
            Answer::Trap(t) => Reply {
                kind: 7,
                detail: u8::from(t.target) as u16,
                cause: u8::from(t.cause) as u16,
                value: t.syndrome as u64,
            },
            Answer::Value(x) => Reply {
                value: x,
                ..plain(8)
            },
            Answer::Mrs { value, rt } => Reply {
                detail: rt as u16,
                value,
                ..plain(9)
            },
            Answer::Refused(n) => Reply {
                detail: u8::from(n) as u16,
                ..plain(10)
            },
        }
    }
}

// `ok` in numbers.
pub fn done() -> Reply
    ensures { result ≡ reply_of Answer.Ok }
{
    Reply::from(Answer::Ok)
}

// A refusal in numbers.
pub fn refused(n: Refusal) -> Reply
    ensures { result ≡ reply_of (Answer.Refused n) }
{
    Reply::from(Answer::Refused(n))
}
