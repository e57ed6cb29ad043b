// Runs cases through the compiled code, and prints what they give, a line each. The file stdout has what they should give: the
// published check value, and numbers and bytes as document 01 lays them out.
#![tactic(auto)]

ghost use Rattle.std.specs.Prelude.{◌<◌};

use std::io;

mod disc; // the discs that the cases read
mod script; // cases as steps
mod worked_disc; // P1 to P5, P9, P10
mod opening_cases; // checks 1 to 14
mod reading_cases; // checks 20 to 27
mod second_cases; // tables of the second kind
mod listing_cases; // the text of the listing program

// All 64 bits one: where a checksum starts, and the largest number of 8 bytes.
const ONES: u64 = u64::MAX;

// The checksum of s in parts of `size` bytes, the last of which may be shorter.
fn in_parts(s: &[u8], size: usize) -> u64
    requires { 0 < size }
{
    let mut register = ONES;
    for part in s.chunks(size) {
        register = crc64::update(register, part);
    }
    !register
}

// 5,000 bytes that go through all values.
fn sample() -> [u8; 5000] {
    let mut s = [0u8; 5000];
    let mut next = 0u8;
    for byte in &mut s {
        *byte = next;
        next = next.wrapping_add(7);
    }
    s
}

// Whether two numbers that should be the same are.
fn same(a: u64, b: u64) -> &'static str {
    if a == b { "same" } else { "NOT THE SAME" }
}

fn checksums(rt: &impl Print) -> io::Result<()> {
    println!(rt; "checksum of no bytes: {:016x}", crc64::checksum(b""))?;
    println!(rt;
        "checksum of 123456789: {:016x}",
        crc64::checksum(b"123456789")
    )?;
    println!(rt;
        "the same in parts of 4: {:016x}",
        in_parts(b"123456789", 4)
    )?;
    let s = sample();
    let whole = crc64::checksum(&s);
    println!(rt;
        "5,000 bytes at once and in parts of 100: {}",
        same(whole, in_parts(&s, 100))
    )?;
    println!(rt;
        "5,000 bytes at once and in parts of 1,024: {}",
        same(whole, in_parts(&s, 1024))
    )
}

// A name and eight bytes, in hexadecimal.
fn bytes_line(rt: &impl Print, name: &str, s: &[u8; 8]) -> io::Result<()> {
    print!(rt; "{name}:")?;
    for byte in s {
        print!(rt; " {byte:02x}")?;
    }
    println!(rt;)
}

fn fields_of_each_width(rt: &impl Print) -> io::Result<()> {
    let mut s = [0xeeu8; 8];
    fields::put(&mut s, 0, 8, 0x0102030405060708);
    bytes_line(rt, "8 bytes", &s)?;
    fields::put(&mut s, 1, 4, 0xa1a2a3a4);
    bytes_line(rt, "then 4 bytes at 1", &s)?;
    fields::put(&mut s, 6, 2, 0xb1b2);
    bytes_line(rt, "then 2 bytes at 6", &s)?;
    fields::put(&mut s, 0, 1, 0xc1);
    bytes_line(rt, "then 1 byte at 0", &s)?;
    println!(rt; "read back, 8 bytes: {:016x}", fields::get(&s, 0, 8))?;
    println!(rt; "4 bytes at 1: {:016x}", fields::get(&s, 1, 4))?;
    println!(rt; "2 bytes at 6: {:016x}", fields::get(&s, 6, 2))?;
    println!(rt; "1 byte at 0: {:016x}", fields::get(&s, 0, 1))
}

// The number that an identifier's letters make.
fn identifiers(rt: &impl Print) -> io::Result<()> {
    println!(rt; "AARUFRMT: {:016x}", fields::get(b"AARUFRMT", 0, 8))?;
    println!(rt; "DICMFRMT: {:016x}", fields::get(b"DICMFRMT", 0, 8))?;
    println!(rt; "IDX2: {:016x}", fields::get(b"IDX2", 0, 4))?;
    println!(rt; "DDT*: {:016x}", fields::get(b"DDT*", 0, 4))?;
    println!(rt; "DBLK: {:016x}", fields::get(b"DBLK", 0, 4))?;
    println!(rt; "CKSM: {:016x}", fields::get(b"CKSM", 0, 4))
}

fn main(rt: HostRuntime) -> io::Result<()> {
    checksums(&rt)?;
    identifiers(&rt)?;
    fields_of_each_width(&rt)?;
    worked_disc::committed_and_rolled_back(&rt)?;
    for scripts in [
        worked_disc::SCRIPTS,
        opening_cases::SCRIPTS,
        reading_cases::SCRIPTS,
        second_cases::SCRIPTS,
    ] {
        for script in scripts {
            script::run(&rt, *script)?;
        }
    }
    listing_cases::all(&rt)
}
