// A command as bytes, in either form of a session: its size, and the bytes written. What was read and is no command has none.
#![tactic(auto)]

ghost use Rattle.std.specs.Prelude.{◌≡◌, ◌+◌, ◌≤◌, length};
ghost use Rattle.command.specs.Operand.{little_bytes};
ghost use Rattle.text.specs.Wrote.{HasRoom, Wrote};
ghost use Rattle.encode.specs.Encode.{value_bytes, set_byte, bytes_of, read_bytes};

use answer::Refusal;
use command::Command;
use form::Form;
use text::Writer;

// How many bytes a set command of the form gives its value.
fn value_bytes(f: Form, v: u64) -> usize
    ensures { (result ≡ value_bytes f v) × (result ≤ 8) }
{
    match f {
        Form::Long => 8,
        Form::Short => form::narrowest(v),
    }
}

// The byte of the set command whose value has k bytes.
fn set_byte(k: usize) -> u8
    ensures { result ≡ set_byte k }
{
    match k {
        1 => 0x11,
        4 => 0x12,
        _ => 0x01,
    }
}

// How many bytes a command has in a form.
#[tactic(auto, unfolding(crate::specs::Encode::bytes_of))]
fn command_size(f: Form, c: Command) -> usize
    ensures { (result ≡ length (bytes_of f c)) × (result ≤ 13) }
{
    match c {
        Command::End | Command::Back => 1,
        Command::Set { value, .. } => 2 + value_bytes(f, value),
        Command::Level { .. } | Command::Tick { .. } | Command::Member { .. } => 2,
        Command::Access { .. } => 13,
        Command::Read { .. } => 3,
        Command::Write { .. } => 11,
    }
}

// How many bytes what was read has in a form: those of a command, and none where reading it met a refusal.
pub fn size(f: Form, read: Result<Command, Refusal>) -> usize
    ensures { (result ≡ length (read_bytes f read)) × (result ≤ 13) }
{
    match read {
        Ok(c) => command_size(f, c),
        Err(_) => 0,
    }
}

// Writes the low k bytes of a number, the lowest first.
fn put(w: &mut Writer<'_>, k: usize, n: u64)
    requires { (k ≤ 8) × HasRoom w.old k }
    ensures { Wrote w.old (little_bytes k n) w.new }
{
    w.bytes(&n.to_le_bytes()[..k]);
}

// Writes a command in a form.
#[tactic(auto, unfolding(crate::specs::Encode::bytes_of))]
fn write_command(w: &mut Writer<'_>, f: Form, c: Command)
    requires { HasRoom w.old (length (bytes_of f c)) }
    ensures { Wrote w.old (bytes_of f c) w.new }
{
    match c {
        Command::End => w.byte(0x00),
        Command::Set { field, value } => {
            let k = value_bytes(f, value);
            w.byte(set_byte(k));
            put(w, 1, field as u64);
            put(w, k, value);
        }
        Command::Level { level } => {
            w.byte(0x02);
            put(w, 1, level as u64);
        }
        Command::Access { word, operand } => {
            w.byte(0x03);
            put(w, 4, word as u64);
            put(w, 8, operand);
        }
        Command::Read { offset } => {
            w.byte(0x04);
            put(w, 2, offset as u64);
        }
        Command::Write { offset, value } => {
            w.byte(0x05);
            put(w, 2, offset as u64);
            put(w, 8, value);
        }
        Command::Tick { prohibited } => {
            w.byte(0x06);
            put(w, 1, prohibited as u64);
        }
        Command::Back => w.byte(0x07),
        Command::Member { draw } => {
            w.byte(0x08);
            put(w, 1, draw as u64);
        }
    }
}

// Writes what was read in a form: a command, and nothing where reading it met a refusal.
pub fn write(w: &mut Writer<'_>, f: Form, read: Result<Command, Refusal>)
    requires { HasRoom w.old (length (read_bytes f read)) }
    ensures { Wrote w.old (read_bytes f read) w.new }
{
    if let Ok(c) = read {
        write_command(w, f, c);
    }
}
