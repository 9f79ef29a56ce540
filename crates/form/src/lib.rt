// The two forms of a session: which one bytes have, where its commands begin, which bytes are commands in it, and how wide its
// sets are.
#![tactic(auto)]

ghost use Rattle.std.specs.Prelude.{◌≡◌, ◌≤◌, length};
ghost use Rattle.form.specs.Form.{head_of, form_of};
ghost use Rattle.form.specs.Sets.{is_unknown, narrowest, is_too_wide};

// The form of a session's bytes. The short form begins with the byte 10, and its sets have values of 1, 4 or 8 bytes.
#[derive(Clone, Copy, Debug, PartialEq, Eq)]
pub enum Form {
    Long,
    Short,
}

// The form of a session.
pub fn form_of(s: &[u8]) -> Form
    ensures { result ≡ form_of s.now }
{
    match s {
        [0x10, ..] => Form::Short,
        _ => Form::Long,
    }
}

// How many bytes stand before the commands.
pub fn head_size(f: Form) -> usize
    ensures { result ≡ length (head_of f) }
{
    match f {
        Form::Long => 0,
        Form::Short => 1,
    }
}

// Where a session's commands begin.
pub fn body_start(s: &[u8]) -> usize
    ensures { (result ≡ length (head_of (form_of s.now))) × (result ≤ length s.now) }
{
    head_size(form_of(s))
}

// No command of the form has this byte.
pub fn is_unknown(f: Form, c: u8) -> bool
    ensures { result ≡ is_unknown f c }
{
    match f {
        Form::Long => 0x08 < c,
        Form::Short => 0x08 < c && c != 0x11 && c != 0x12,
    }
}

// How many bytes the narrowest set that holds the value gives it.
pub fn narrowest(v: u64) -> usize
    ensures { result ≡ narrowest v }
{
    match v {
        ..0x100 => 1,
        ..0x1_0000_0000 => 4,
        _ => 8,
    }
}

// The form has a narrower set for the value than one with k bytes.
pub fn is_too_wide(f: Form, k: usize, v: u64) -> bool
    ensures { result ≡ is_too_wide f k v }
{
    match f {
        Form::Long => false,
        Form::Short => narrowest(v) < k,
    }
}
