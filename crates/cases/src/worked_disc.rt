// The worked disc of document 01, with 2/13's numbers: P1 to P5, P9 and P10, and address 3.
use super::disc::{P1, P2, P3, laid};
use super::script::Question::{Count, Locate};
use super::script::Step::{Ask, Set};
use super::script::{Script, Step};
use format::SectorAddress;
use printing::{Shown, set};
use std::io;

// All of a disc of three sectors, and address 3: the sector count, then each sector's place, size and bytes.
fn disc_lines(rt: &impl Print, name: &str, image: &[u8]) -> io::Result<()> {
    println!(rt; "{name}: {}", Shown(aaru::sector_count(image)))?;
    for number in 0..4i64 {
        let address = SectorAddress(number);
        let place = aaru::locate(image, address);
        print!(rt; "{name}, address {number}: {} \"", Shown(place))?;
        rt.write_all(aaru::read(image, address))?;
        println!(rt; "\"")?;
    }
    Ok(())
}

// A rollback sets indexOffset. (The time that it sets too no read looks at.)
pub fn committed_and_rolled_back(rt: &impl Print) -> io::Result<()> {
    disc_lines(rt, "P1", &laid(P1)[0..213])?;
    disc_lines(rt, "P2", &laid(P2)[0..382])?;
    let mut image = laid(P3);
    disc_lines(rt, "P3", &image[0..507])?;
    set(&mut image, 80, 8, 330); // indexOffset
    disc_lines(rt, "P4", &image[0..507])?;
    set(&mut image, 80, 8, 455); // indexOffset
    disc_lines(rt, "P5", &image[0..507])
}

const P9: &[Step] = &[
    Set(80, 8, 4294967295), // indexOffset
    Ask("P9, index 4294967295, a 32-bit sum is 19", 213, Count),
    Set(80, 8, 194), // indexOffset
    Ask("P9, index 194", 213, Count),
    Set(80, 8, 103), // indexOffset
    Ask("P9, index 103", 213, Count),
    Set(80, 8, 193), // indexOffset
    Ask("P9, index 193", 213, Count),
];

const P10: &[Step] = &[
    Set(213 + 12, 4, 4294967292), // cmpLength
    Set(213 + 16, 4, 4294967292), // length
    Ask("P10, address 0, a 32-bit sum is 245", 382, Locate(0)),
];

// Large numbers: what P9 does to P1, and P10 to P2.
pub const SCRIPTS: &[Script] = &[Script(P1, P9), Script(P2, P10)];
