// The calls, and the lines that say what they answer and whether they wrote what document 01 allows and nothing else.
use super::script::LENGTH;
use aaru::{ByteOffset, Placed, Refusal, Stamp};
use printing::{Shown, split_line};
use std::io;

#[derive(Clone, Copy)]
pub enum Call {
    // Creates: how many sectors, how many application bytes, creationTime and lastWrittenTime.
    Create(u64, usize, u64, u64),
    // Rolls back: `used`, the offset and the time.
    Rollback(u64, u64, u64),
    // Commits sectors: `used`, the addresses, the size and the time.
    Commit(u64, &'static [i64], u64, u64),
    // Commits sectors at so many addresses, which are all 0.
    Many(u64, usize, u64, u64),
}

impl Call {
    // Where what the call appends starts.
    fn appended_at(self) -> u64 {
        match self {
            Call::Create(..) => 0,
            Call::Rollback(used, ..) | Call::Commit(used, ..) | Call::Many(used, ..) => used,
        }
    }

    fn has_sectors(self) -> bool {
        matches!(self, Call::Commit(..) | Call::Many(..))
    }
}

// Creates. The application is bytes of 7, its version 1.2, mediaType 3.
fn create(
    buffer: &mut [u8],
    count: u64,
    n: usize,
    created: u64,
    written: u64,
) -> Result<Placed, Refusal> {
    let application = [7u8; 65];
    let stamp = Stamp {
        application: &application[..n.min(65)],
        major: 1,
        minor: 2,
        media_type: 3,
        created,
        written,
    };
    aaru::create(buffer, count, stamp)
}

fn commit_many(
    buffer: &mut [u8],
    used: u64,
    n: usize,
    size: u64,
    sectors: &[u8],
    time: u64,
) -> Result<Placed, Refusal> {
    let addresses = [0i64; 65537];
    let addresses = &addresses[0..n.min(65537)];
    aaru::commit(buffer, used, addresses, size, sectors, time)
}

fn make(buffer: &mut [u8], call: Call, sectors: &[u8]) -> Result<Placed, Refusal> {
    match call {
        Call::Create(count, n, created, written) => create(buffer, count, n, created, written),
        Call::Rollback(used, offset, time) => {
            aaru::rollback(buffer, used, ByteOffset(offset), time)
        }
        Call::Commit(used, addresses, size, time) => {
            aaru::commit(buffer, used, addresses, size, sectors, time)
        }
        Call::Many(used, n, size, time) => commit_many(buffer, used, n, size, sectors, time),
    }
}

// Takes over what the call may have written from `start` to `end`.
fn take(expected: &mut [u8; LENGTH], buffer: &[u8; LENGTH], start: u64, end: u64) {
    let bytes = expected.iter_mut().zip(buffer);
    for (old, new) in bytes.take(end as usize).skip(start as usize) {
        *old = *new;
    }
}

// Prints a call's answer, and whether all bytes but indexOffset, lastWrittenTime and those appended are as they were before it;
// if it is refused, whether all are.
fn report(
    rt: &impl Print,
    before: &[u8; LENGTH],
    buffer: &[u8; LENGTH],
    call: Call,
    answer: Result<Placed, Refusal>,
) -> io::Result<()> {
    let mut expected = *before;
    if let Ok(placed) = answer {
        take(&mut expected, buffer, 80, 88);
        take(&mut expected, buffer, 96, 104);
        take(&mut expected, buffer, call.appended_at(), placed.used);
    }
    if expected == *buffer {
        println!(rt; "{}, rest unchanged", Shown(answer))
    } else {
        println!(rt; "{}, REST CHANGED", Shown(answer))
    }
}

// Makes a call on the buffer's first `limit` bytes, and prints what came of it, behind the case's name. Below the name stand the sectors.
pub fn make_within(
    rt: &impl Print,
    text: &str,
    buffer: &mut [u8; LENGTH],
    limit: usize,
    call: Call,
) -> io::Result<()> {
    let (name, sectors) = split_line(text.as_bytes());
    rt.write_all(name)?;
    if call.has_sectors() {
        print!(rt; " \"")?;
        rt.write_all(sectors)?;
        print!(rt; "\"")?;
    }
    print!(rt; ": ")?;
    let before = *buffer;
    let answer = make(&mut buffer[..limit.min(LENGTH)], call, sectors);
    report(rt, &before, buffer, call, answer)
}
