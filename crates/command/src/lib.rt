// A session's bytes as commands: the command that they begin with, with its little-endian operands, or why there is none.
#![tactic(auto)]

pub mod reading; // reading.rt: how far reading goes on

ghost use Rattle.std.specs.Prelude.{◌≡◌, ◌+◌, ◌≤◌, length, take, drop};
ghost use Rattle.command.specs.Operand.{operand};
ghost use Rattle.command.specs.Command.{operand_bytes, set_of, command_with, command_of};

use answer::Refusal;
use form::Form;

// A command of a session with its operands.
#[derive(Clone, Copy)]
pub enum Command {
    End,
    Set { field: u8, value: u64 },
    Level { level: u8 },
    Access { word: u32, operand: u64 },
    Read { offset: u16 },
    Write { offset: u16, value: u64 },
    Tick { prohibited: u8 },
    Back,
    Member { draw: u8 },
}

// So many bytes, from a place on.
fn bytes<const N: usize>(s: &[u8], at: usize) -> [u8; N]
    requires { at + N ≤ length s.now }
    ensures { result ≡ take N (drop at s.now) }
{
    s[at..at + N].try_into().unwrap()
}

// The offset that an external access's operands begin with.
fn offset(t: &[u8]) -> u16
    requires { 2 ≤ length t.now }
    ensures { result ≡ operand t.now 0 2 }
{
    u16::from_le_bytes(bytes(t, 0))
}

// The set command whose value has k bytes.
fn set_of(f: Form, k: usize, field: u8, value: u64) -> Result<Command, Refusal>
    ensures { result ≡ set_of f k field value }
{
    if form::is_too_wide(f, k, value) {
        return Err(Refusal::SetTooWide);
    }
    Ok(Command::Set { field, value })
}

// How many bytes of operands follow a command byte.
fn operand_bytes(c: u8) -> usize
    ensures { result ≡ operand_bytes c }
{
    match c {
        0x01 => 9,
        0x02 => 1,
        0x03 => 12,
        0x04 => 2,
        0x05 => 10,
        0x06 => 1,
        0x07 => 0,
        0x08 => 1,
        0x11 => 2,
        0x12 => 5,
        _ => 0,
    }
}

// The command with byte c, whose operands are at the front of t.
fn command_with(f: Form, c: u8, t: &[u8]) -> Result<Command, Refusal>
    requires { operand_bytes c ≤ length t.now }
    ensures { result ≡ command_with f c t.now }
{
    match c {
        0x01 => set_of(f, 8, t[0], u64::from_le_bytes(bytes(t, 1))),
        0x02 => Ok(Command::Level { level: t[0] }),
        0x03 => Ok(Command::Access {
            word: u32::from_le_bytes(bytes(t, 0)),
            operand: u64::from_le_bytes(bytes(t, 4)),
        }),
        0x04 => Ok(Command::Read { offset: offset(t) }),
        0x05 => Ok(Command::Write {
            offset: offset(t),
            value: u64::from_le_bytes(bytes(t, 2)),
        }),
        0x06 => Ok(Command::Tick { prohibited: t[0] }),
        0x07 => Ok(Command::Back),
        0x08 => Ok(Command::Member { draw: t[0] }),
        0x11 => set_of(f, 1, t[0], u64::from(t[1])),
        0x12 => set_of(f, 4, t[0], u64::from(u32::from_le_bytes(bytes(t, 1)))),
        _ => Ok(Command::End),
    }
}

// The command that the bytes, in a form, begin with, or why they begin with none.
pub fn command_of(f: Form, t: &[u8]) -> Result<Command, Refusal>
    ensures { result ≡ command_of f t.now }
{
    let [c, operands @ ..] = t else {
        return Err(Refusal::Truncated);
    };
    if form::is_unknown(f, *c) {
        return Err(Refusal::UnknownCommand);
    }
    if operand_bytes(*c) <= operands.len() {
        return command_with(f, *c, operands);
    }
    Err(Refusal::Truncated)
}
