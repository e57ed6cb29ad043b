// What is asked of a buffer, and the lines that answer.
use super::script::LENGTH;
use fields::get;
use format::SectorAddress;
use printing::{Hex, Shown};
use std::io;

#[derive(Clone, Copy)]
pub enum Question {
    // The sector count of the image of so many bytes; then for each address, and the one after the last, the sector's place,
    // size and bytes, or the refusal.
    Disc(usize),
    // The shift and the entries of the table there.
    Table(usize),
    // The bytes from there on, so many.
    Bytes(usize, usize),
}

// Discs have at most 7 sectors here.
fn disc(rt: &impl Print, image: &[u8]) -> io::Result<()> {
    let answer = aaru::sector_count(image);
    print!(rt; "{}", Shown(answer))?;
    if let Ok(range) = answer {
        for (number, _) in (0..8i64).zip(0..=range.count) {
            let address = SectorAddress(number);
            let place = aaru::locate(image, address);
            print!(rt; "; {} \"", Shown(place))?;
            rt.write_all(aaru::read(image, address))?;
            print!(rt; "\"")?;
        }
    }
    Ok(())
}

fn table(rt: &impl Print, buffer: &[u8; LENGTH], place: usize) -> io::Result<()> {
    let Some(header) = buffer.get(place..place.saturating_add(49)) else {
        return Ok(());
    };
    print!(rt; "shift {}, entries", header[8])?;
    let count = get(header, 9, 8);
    let (entries, _) = buffer[place + 49..].as_chunks::<8>();
    for (entry, _) in entries.iter().zip(0..count) {
        print!(rt; " {}", u64::from_le_bytes(*entry))?;
    }
    Ok(())
}

// Prints what the buffer answers, behind the case's name.
pub fn ask(
    rt: &impl Print,
    name: &str,
    buffer: &[u8; LENGTH],
    question: Question,
) -> io::Result<()> {
    print!(rt; "{name}: ")?;
    match question {
        Question::Disc(used) => disc(rt, &buffer[..used.min(LENGTH)])?,
        Question::Table(place) => table(rt, buffer, place)?,
        Question::Bytes(at, n) => {
            if let Some(bytes) = buffer.get(at..at.saturating_add(n)) {
                print!(rt; "{}", Hex(bytes))?;
            }
        }
    }
    println!(rt;)
}
