// How far reading goes on: how many bytes a command takes, whether it is the last that is read, and so the commands one by one.
ghost use Rattle.std.specs.Prelude.{◌≡◌};
ghost use Rattle.command.specs.Command.{size_at, is_last};

use crate::Command;
use answer::Refusal;
use form::Form;

// How many bytes the command at the front takes.
pub fn size_at(t: &[u8]) -> usize
    ensures { result ≡ size_at t.now }
{
    match t {
        [] => 0,
        [c, ..] => 1 + crate::operand_bytes(*c),
    }
}

// Nothing is read past what was read here.
pub fn is_last(c: Result<Command, Refusal>) -> bool
    ensures { result ≡ is_last c }
{
    match c {
        Ok(Command::End) => true,
        Ok(_) => false,
        Err(r) => u8::from(r) <= 2,
    }
}

// The commands of bytes in a form, one by one: those in what is left to read, and none where reading has ended.
#[derive(Clone, Copy)]
pub struct Commands<'a> {
    form: Form,
    rest: Option<&'a [u8]>,
}

impl<'a> Commands<'a> {
    ghost use Rattle.command.specs.Command.{commands_in};
    ghost use Rattle.command.specs.Left.{commands_left};

    // The commands of bytes in a form.
    pub fn new(form: Form, bytes: &'a [u8]) -> Commands<'a>
        ensures { commands_left result ≡ commands_in form bytes.now }
    {
        Commands {
            form,
            rest: Some(bytes),
        }
    }
}

impl<'a> Iterator for Commands<'a> {
    ghost use Rattle.std.specs.Iterator.{YieldsFirst, item_count};
    ghost use Rattle.command.specs.Left.{commands_left};

    type Item = Result<Command, Refusal>;

    ghost next_gives = { YieldsFirst commands_left };

    ghost remaining = { item_count commands_left };

    #[inline(always)]
    fn next(&mut self) -> Option<Result<Command, Refusal>> {
        let rest = self.rest?;
        let read = crate::command_of(self.form, rest);
        self.rest = None;
        if !is_last(read) {
            self.rest = Some(&rest[size_at(rest)..]);
        }
        Some(read)
    }
}
