// Text written into a buffer as the bytes of a line: fixed bytes, decimal, uppercase hexadecimal. A writer holds the buffer and
// its place in it, and each of its methods asks for room for what it writes.
#![tactic(auto)]

ghost use Rattle.std.specs.Prelude.{[], ◌∷◌, ◌≡◌, ◌+◌, ◌<◌, ◌≤◌, length};
ghost use Rattle.text.specs.Text.{decimal, hex_digit, hex};
ghost use Rattle.text.specs.Wrote.{HasRoom, Wrote};

// A buffer, and the place in it from which on the next bytes are written.
#[derive(Drop)]
pub struct Writer<'a> {
    out: &'a mut [u8],
    at: usize,
}

impl<'a> Writer<'a> {
    // A writer at the front of a buffer.
    pub fn new(out: &'a mut [u8]) -> Writer<'a>
        ensures same_buffer { result.out.ghost_name ≡ out.entry.ghost_name }
        ensures buffer { result.out.now ≡ out.old }
        ensures front { result.at ≡ 0 }
    {
        Writer { out, at: 0 }
    }

    // The place behind what was written.
    pub fn place(&self) -> usize
        ensures { result ≡ self.now.at }
    {
        self.at
    }

    // One byte.
    pub fn byte(&mut self, b: u8)
        requires { HasRoom self.old 1 }
        ensures { Wrote self.old (b ∷ []) self.new }
    {
        self.out[self.at] = b;
        self.at += 1;
    }

    // The bytes of a fixed text. A loop, since copy_from_slice tests whether the two overlap, which takes 5 instructions a text.
    pub fn bytes(&mut self, s: &[u8])
        requires { HasRoom self.old (length s.now) }
        ensures { Wrote self.old s.now self.new }
    {
        let end = self.at + s.len();
        let part = &mut self.out[self.at..end];
        for i in 0..s.len() {
            part[i] = s[i];
        }
        self.at = end;
    }

    // A number below 10,000 in decimal. Inlined: each line begins with one, and takes 10 instructions more where this is a call.
    #[inline(always)]
    pub fn decimal(&mut self, n: u64)
        requires { (n < 10000) × HasRoom self.old 4 }
        ensures wrote { Wrote self.old (decimal n) self.new }
        ensures few { self.new.at ≤ self.old.at + 4 }
    {
        if n < 10 {
            self.bytes(&[digit(n)]);
        } else if n < 100 {
            self.bytes(&[digit(n / 10), digit(n % 10)]);
        } else if n < 1000 {
            self.bytes(&[digit(n / 100), digit(n / 10 % 10), digit(n % 10)]);
        } else {
            self.bytes(&[
                digit(n / 1000),
                digit(n / 100 % 10),
                digit(n / 10 % 10),
                digit(n % 10),
            ]);
        }
    }

    // The low k digits of x in uppercase hexadecimal, 16 at most.
    pub fn hex(&mut self, k: usize, x: u64)
        requires { (k ≤ 16) × HasRoom self.old 16 }
        ensures wrote { Wrote self.old (hex k x) self.new }
        ensures digits { self.new.at ≡ self.old.at + k }
    {
        let mut digits = [0u8; 16];
        for i in 0..k {
            digits[i] = hex_digit((x >> (4 * (k - 1 - i))) % 16);
        }
        self.bytes(&digits[..k]);
    }
}

// The digit of a number below 10.
fn digit(d: u64) -> u8
    requires { d < 10 }
    ensures { result ≡ 48 + d }
{
    (48 + d) as u8
}

// The uppercase hexadecimal digit of a number below 16; the library's char::from_digit gives lowercase letters.
fn hex_digit(d: u64) -> u8
    requires { d < 16 }
    ensures { result ≡ hex_digit d }
{
    if d < 10 {
        (48 + d) as u8
    } else {
        (55 + d) as u8
    }
}
