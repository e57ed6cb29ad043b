// Internal: text written into a lent buffer.
#![tactic(auto)]

ghost use Rattle.std.specs.Prelude.{◌≡◌, [], ◌∷◌, ◌++◌, ◌≤◌, length};
ghost use Rattle.text.specs.Buffer.{Writes};
ghost use Rattle.text.specs.Text.{NEWLINE, decimal, signed, refused_line};

use fields::magnitude;

// A lent buffer and the place up to which it is written. What does not fit is dropped and the place stays at the buffer's end, so that a
// caller writes one piece after the other with no test between them.
#[derive(Drop)]
pub struct Writer<'a> {
    out: &'a mut [u8],
    at: usize,
    ghost inside: { at ≤ length out.now },
}

impl<'a> Writer<'a> {
    ghost use Rattle.text.specs.Appends.{lent_to, buffer_of, place_of, Appends};

    // From the front of out on.
    pub fn new(out: &'a mut [u8]) -> Writer<'a>
        ensures lent { lent_to result ≡ out.entry.ghost_name }
        ensures front { (buffer_of result ≡ out.old) × (place_of result ≡ 0) }
    {
        Writer { out, at: 0 }
    }

    // How many bytes are written.
    pub fn written(&self) -> usize
        ensures { result ≡ place_of self.now }
    {
        self.at
    }

    // One byte.
    fn byte(&mut self, b: u8)
        ensures { Appends self.old (b ∷ []) self.new }
    {
        if self.at < self.out.len() {
            self.out[self.at] = b;
            self.at += 1;
        }
    }

    // The bytes of s.
    pub fn bytes(&mut self, s: &[u8])
        ensures { Appends self.old s.now self.new }
    {
        // an iteration for each byte of s
        for b in s {
            self.byte(*b);
        }
    }

    // A number in decimal. It calls itself at most 19 times, once for each digit before the last. The library prints to a
    // `fmt::Write` or a `String`, which a lent buffer is not.
    pub fn number(&mut self, n: u64)
        ensures { Appends self.old (decimal n) self.new }
    {
        let last = (48 + n % 10) as u8;
        if n < 10 {
            return self.byte(last);
        }
        self.number(n / 10);
        self.byte(last);
    }

    // A number that may be negative, in decimal.
    pub fn signed(&mut self, x: i64)
        ensures { Appends self.old (signed x) self.new }
    {
        let n = magnitude(x);
        if x < 0 {
            return self.both(b"-", n);
        }
        self.number(n);
    }

    // A word and a number.
    pub fn both(&mut self, word: &[u8], n: u64)
        ensures { Appends self.old (word.now ++ decimal n) self.new }
    {
        self.bytes(word);
        self.number(n);
    }

    // A word and a number that end a line.
    pub fn end(&mut self, word: &[u8], n: u64)
        ensures { Appends self.old (word.now ++ decimal n ++ NEWLINE) self.new }
    {
        self.both(word, n);
        self.bytes(b"\n");
    }

    // The line of a refusal, by its number.
    pub fn refused(&mut self, number: u64)
        ensures { Appends self.old (refused_line number) self.new }
    {
        self.end(b"refused ", number);
    }
}

// A text alone, at the front of out; the answer is how many bytes are written.
pub fn print(out: &mut [u8], s: &[u8]) -> usize
    ensures { Writes out.old 0 s.now out.new result }
{
    let mut w = Writer::new(out);
    w.bytes(s);
    w.written()
}

// The line of a refusal, from the place `at` on; the answer is the place after it.
pub fn refused(out: &mut [u8], at: usize, number: u64) -> usize
    requires { at ≤ length out.old }
    ensures { Writes out.old at (refused_line number) out.new result }
{
    let mut w = Writer { out, at };
    w.refused(number);
    w.written()
}

// The line of a refusal alone.
pub fn print_refused(out: &mut [u8], number: u64) -> usize
    ensures { Writes out.old 0 (refused_line number) out.new result }
{
    refused(out, 0, number)
}
