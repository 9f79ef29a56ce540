// A session in its other form, written to the front of a buffer, or why there is none.
#![tactic(auto)]

ghost use Rattle.std.specs.Prelude.{◌≡◌, ◌+◌, ◌≤◌, length};
ghost use Rattle.command.specs.Command.{commands_in};
ghost use Rattle.form.specs.Form.{head_of, longest};
ghost use Rattle.text.specs.Wrote.{HasRoom, Wrote};
ghost use Rattle.conversion.specs.Conversion.{other_form, bytes_in, is_too_long, converted};
ghost use Rattle.conversion.specs.Call.{room, measure_of, answer_of, held_of, result_of, buffer_of};

use answer::Refusal;
use command::reading::Commands;
use form::Form;
use text::Writer;

// The bytes that any session fits into, in either form: `room` of specs/Call.antt.
pub const ROOM: usize = 4097;

// The form that a session is converted to.
fn other_form(f: Form) -> Form
    ensures { result ≡ other_form f }
{
    match f {
        Form::Long => Form::Short,
        Form::Short => Form::Long,
    }
}

// How many bytes the commands in bytes of form f have in form g, or the first refusal that is met in reading them.
fn measure(f: Form, g: Form, body: &[u8]) -> Result<usize, Refusal>
    requires { length body.now ≤ longest }
    ensures { result ≡ measure_of g (commands_in f body.now) }
{
    let mut total: usize = 0;
    for read in Commands::new(f, body) {
        total += encode::size(g, Ok(read?));
    }
    Ok(total)
}

// Writes what stands before the commands of a form.
fn write_head(w: &mut Writer<'_>, g: Form)
    requires { HasRoom w.old 1 }
    ensures { Wrote w.old (head_of g) w.new }
{
    match g {
        Form::Long => {}
        Form::Short => w.byte(0x10),
    }
}

// Writes the commands in bytes of form f in form g.
fn write_commands(w: &mut Writer<'_>, f: Form, g: Form, body: &[u8])
    requires { HasRoom w.old (length (bytes_in g (commands_in f body.now))) }
    ensures { Wrote w.old (bytes_in g (commands_in f body.now)) w.new }
{
    for read in Commands::new(f, body) {
        encode::write(w, g, read);
    }
}

// So many bytes of commands are too many for the form.
fn is_too_long(g: Form, n: usize) -> bool
    ensures { result ≡ is_too_long g n }
{
    match g {
        Form::Long => 4096 < n,
        Form::Short => false,
    }
}

// Why there is no conversion: the buffer is too short for a session, or the session is refused. The buffer was left alone.
#[derive(Clone, Copy)]
pub enum NotConverted {
    NoRoom,
    Refused(Refusal),
}

impl From<Refusal> for NotConverted {
    ghost use Rattle.conversion.specs.declared.NotConverted.{NotConverted};

    ghost from_gives = { λ r e. e ≡ NotConverted.Refused r };

    fn from(r: Refusal) -> NotConverted {
        NotConverted::Refused(r)
    }
}

// Writes the session with the commands in bytes of form f, in the other form, to the front of the buffer.
fn convert_body(f: Form, body: &[u8], out: &mut [u8]) -> Result<usize, NotConverted>
    requires { (length body.now ≤ longest) × (room ≤ length out.old) }
    ensures { (result ≡ answer_of (converted (other_form f) (commands_in f body.now)))
        × (out.new ≡ held_of (converted (other_form f) (commands_in f body.now)) out.old) }
{
    let g = other_form(f);
    let n = measure(f, g, body)?;
    if is_too_long(g, n) {
        return Err(NotConverted::Refused(Refusal::LongFormTooLong));
    }
    let mut w = Writer::new(out);
    write_head(&mut w, g);
    write_commands(&mut w, f, g, body);
    Ok(w.place())
}

// Writes the other form of a session to the front of the buffer. Says how many bytes it has.
pub fn convert(input: &[u8], out: &mut [u8]) -> Result<usize, NotConverted>
    ensures { (result ≡ result_of input.now out.old)
        × (out.new ≡ buffer_of input.now out.old) }
{
    if out.len() < ROOM {
        return Err(NotConverted::NoRoom);
    }
    let f = form::form_of(input);
    let start = form::body_start(input);
    if 4096 < input.len() - start {
        return Err(NotConverted::Refused(Refusal::SessionTooLong));
    }
    convert_body(f, &input[start..], out)
}
