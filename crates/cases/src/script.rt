// Scripts of cases: what is written into a disc's image, and what it answers then.
use super::disc::{Disc, laid};
use format::SectorAddress;
use printing::{Shown, seal, set};
use std::io;

// What is asked of an image.
#[derive(Clone, Copy)]
pub enum Question {
    // The sector count.
    Count,
    // The place and the size of the sector at an address.
    Locate(i64),
}

#[derive(Clone, Copy)]
pub enum Step {
    // A field: where, how wide, and its number.
    Set(u64, u64, u64),
    // Where a checksum is written, of the n bytes that follow it.
    Crc(u64, u64),
    // The same, of the n bytes that follow the next 8.
    Cmp(u64, u64),
    // The disc as it was.
    Fresh,
    // A case: its name, how many bytes the image has, and what it is asked.
    Ask(&'static str, u64, Question),
}

// A disc, and the steps that bend it.
#[derive(Clone, Copy)]
pub struct Script(pub Disc, pub &'static [Step]);

// Prints what the image answers, behind the case's name.
fn ask(rt: &impl Print, name: &str, image: &[u8], question: Question) -> io::Result<()> {
    match question {
        Question::Count => println!(rt; "{name}: {}", Shown(aaru::sector_count(image))),
        Question::Locate(address) => {
            let place = aaru::locate(image, SectorAddress(address));
            println!(rt; "{name}: {}", Shown(place))
        }
    }
}

pub fn run(rt: &impl Print, script: Script) -> io::Result<()> {
    let Script(disc, steps) = script;
    let mut image = laid(disc);
    for step in steps {
        match *step {
            Step::Set(at, width, number) => set(&mut image, at, width, number),
            Step::Crc(at, n) => seal(&mut image, at, at.saturating_add(8), n),
            Step::Cmp(at, n) => seal(&mut image, at, at.saturating_add(16), n),
            Step::Fresh => image = laid(disc),
            Step::Ask(name, used, question) => {
                let used = image.len().min(used as usize);
                ask(rt, name, &image[..used], question)?
            }
        }
    }
    Ok(())
}
