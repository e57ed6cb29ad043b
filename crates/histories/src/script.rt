// Scripts of cases: what is written into a buffer, asked of it, or called on it. What comes of it is printed behind the case's name.
use super::asks::{Question, ask};
use super::calls::{Call, make_within};
use printing::{seal, set};
use std::io;

#[derive(Clone, Copy)]
pub enum Step {
    // A field: where, how wide, and its number.
    Set(u64, u64, u64),
    // Where a checksum is written, and of which bytes: from where on, and how many.
    Crc(u64, u64, u64),
    // A fresh buffer, whose bytes are not 0. The calls after this step are handed its first bytes, so many.
    Fresh(usize),
    // A case's name, and what the buffer is asked.
    Ask(&'static str, Question),
    // A case's name, and below a commit's its sectors' bytes; and the call.
    Make(&'static str, Call),
}

// How many bytes the buffer has.
pub const LENGTH: usize = 1200;

const BLANK: [u8; LENGTH] = [0xee; LENGTH];

// Runs a script. Its calls are handed the whole buffer at first.
pub fn run(rt: &impl Print, steps: &[Step]) -> io::Result<()> {
    let mut buffer = BLANK;
    // beside the whole buffer, since what lies behind the limit has to stay too
    let mut limit = LENGTH;
    for step in steps {
        match *step {
            Step::Set(at, width, number) => set(&mut buffer, at, width, number),
            Step::Crc(at, start, n) => seal(&mut buffer, at, start, n),
            Step::Fresh(n) => {
                buffer = BLANK;
                limit = n;
            }
            Step::Ask(name, question) => ask(rt, name, &buffer, question)?,
            Step::Make(text, call) => make_within(rt, text, &mut buffer, limit, call)?,
        }
    }
    Ok(())
}
