// Internal: the checksum of document 01, CRC-64/XZ.
#![tactic(auto)]

ghost use Rattle.std.specs.Prelude.{◌≡◌};
ghost use Rattle.crc64.specs.Crc.{run, crc_of};

mod register; // the rule, a bit at a time
mod tables; // the tables that serve eight bits at a time
mod lanes; // long runs by tables, in four lanes

// The number of bytes from which on filling the tables pays, as bench/ measures it.
const THRESHOLD: usize = 128;

// The checksum of s.
pub fn checksum(s: &[u8]) -> u64
    ensures { result ≡ crc_of s.now }
{
    !update(0xffff_ffff_ffff_ffff, s)
}

// The bytes of s into the register, for a checksum of bytes that come in parts. Start with all
// ones, hand in the parts in order, each with the answer for the one before, and invert the last.
pub fn update(register: u64, s: &[u8]) -> u64
    ensures { result ≡ run register s.now }
{
    if s.len() < THRESHOLD {
        update_bitwise(register, s)
    } else {
        update_by_tables(register, s)
    }
}

// The same a bit at a time, with no tables. Public, as the next, so that bench/ can measure it.
pub fn update_bitwise(register: u64, s: &[u8]) -> u64
    ensures { result ≡ run register s.now }
{
    register::update(register, s)
}

// The same by tables, which are filled first and take 16 KiB of the stack.
pub fn update_by_tables(register: u64, s: &[u8]) -> u64
    ensures { result ≡ run register s.now }
{
    let mut t = [0u64; 2048];
    tables::fill(&mut t);
    lanes::update(&t, register, s)
}
