// Internal: what the programs that run cases share, how they print the library's answers and write into a buffer; letters as
// numbers; and how a program reads standard input and answers it.
#![tactic(auto)]

ghost use Rattle.std.specs.Prelude.{◌≡◌, ◌⊎◌, ◌+◌, ◌≤◌, ◌++◌, ◌∷◌, [], ◌==◌, false, All, length};
ghost use Rattle.fields.specs.Bytes.{part, to_le, overwrite};
ghost use Rattle.crc64.specs.Crc.{crc_of};

use fields::{part, put, room};
use format::{AddressRange, Place, Placed, Refusal};
use std::fmt;
use std::fmt::Display;

pub mod input;
pub mod letters;

// What is printed of a value.
#[derive(Clone, Copy)]
pub struct Shown<T>(pub T);

// The number and the place.
impl Display for Shown<Refusal> {
    fn fmt<W: fmt::Write>(&self, f: &mut fmt::Formatter<W>) -> fmt::Result {
        let Refusal { number, place } = self.0;
        write!(f, "refused {number} at {}", place.0)
    }
}

// How many sectors there are, and the lowest address where it is not 0.
impl Display for Shown<AddressRange> {
    fn fmt<W: fmt::Write>(&self, f: &mut fmt::Formatter<W>) -> fmt::Result {
        let AddressRange { count, lowest } = self.0;
        match lowest.0 {
            0 => write!(f, "sectors {count}"),
            address => write!(f, "sectors {count} from {address}"),
        }
    }
}

// Where a sector lies, and its size.
impl Display for Shown<Place> {
    fn fmt<W: fmt::Write>(&self, f: &mut fmt::Formatter<W>) -> fmt::Result {
        let Place { start, size } = self.0;
        write!(f, "{} {size}", start.0)
    }
}

// How many bytes an image has, and where its index is.
impl Display for Shown<Placed> {
    fn fmt<W: fmt::Write>(&self, f: &mut fmt::Formatter<W>) -> fmt::Result {
        let Placed { used, index } = self.0;
        write!(f, "used {used}, index {}", index.0)
    }
}

// An answer of the library.
impl<T: Copy> Display for Shown<Result<T, Refusal>>
where
    Shown<T>: Display,
{
    fn fmt<W: fmt::Write>(&self, f: &mut fmt::Formatter<W>) -> fmt::Result {
        match self.0 {
            Ok(x) => write!(f, "{}", Shown(x)),
            Err(r) => write!(f, "{}", Shown(r)),
        }
    }
}

// Bytes, in hexadecimal.
#[derive(Clone, Copy)]
pub struct Hex<'a>(pub &'a [u8]);

impl Display for Hex<'_> {
    fn fmt<W: fmt::Write>(&self, f: &mut fmt::Formatter<W>) -> fmt::Result {
        for byte in self.0 {
            write!(f, "{byte:02x}")?;
        }
        Ok(())
    }
}

// The first line of a text, and what stands below it: nothing where no newline ends the line.
pub fn split_line(text: &[u8]) -> (&[u8], &[u8])
    ensures line { All (λ byte. (byte == 10) ≡ false) result.0.now }
    ensures parts { (text.now ≡ result.0.now ++ (10 ∷ result.1.now)) ⊎ ((text.now ≡ result.0.now) × (result.1.now ≡ [])) }
{
    match text.iter().position(|byte| *byte == b'\n') {
        Some(end) => (&text[..end], &text[end + 1..]),
        None => (text, b""),
    }
}

// Writes the `width` lowest bytes of a number at `at`, the lowest first; nothing where they lie past the end.
pub fn set(buffer: &mut [u8], at: u64, width: u64, number: u64)
    ensures { at + width ≤ length buffer.old → width ≤ 8 → buffer.new ≡ overwrite buffer.old at (to_le width number) }
{
    if width <= room(buffer, at) && width <= 8 && at <= buffer.len() as u64 {
        put(buffer, at, width, number);
    }
}

// Writes the checksum of the n bytes from `start` at `at`; nothing where either lies past the end.
pub fn seal(buffer: &mut [u8], at: u64, start: u64, n: u64)
    ensures { at + 8 ≤ length buffer.old → start + n ≤ length buffer.old → buffer.new ≡ overwrite buffer.old at (to_le 8 (crc_of (part buffer.old start n))) }
{
    if n <= room(buffer, start) && start <= buffer.len() as u64 {
        let crc = crc64::checksum(part(buffer, start, n));
        set(buffer, at, 8, crc);
    }
}
