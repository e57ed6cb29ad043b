// What the listing program prints for inputs of every kind, below a line with the input's name.
use super::disc::{P3, SECOND, laid};
use printing::set;
use std::io;

// A name, and the listing of an input. Not inlined, so that the stack holds the room for one text at a time.
#[inline(never)]
fn listing_lines(rt: &impl Print, name: &str, input: &[u8]) -> io::Result<()> {
    println!(rt; "{name}:")?;
    let mut out = [0u8; 311296];
    let n = listing::list(input, &mut out);
    rt.write_all(&out[..n])
}

// The image and zeros after it: 65,536 bytes are listed, one more is too long.
fn longest(rt: &impl Print, image: &[u8; 512]) -> io::Result<()> {
    let mut input = [0u8; 65537];
    input[0..512].copy_from_slice(image);
    listing_lines(rt, "P3 and zeros, 65,536 bytes", &input[0..65536])?;
    listing_lines(rt, "P3 and zeros, 65,537 bytes", &input)
}

pub fn all(rt: &impl Print) -> io::Result<()> {
    listing_lines(rt, "no bytes", b"")?;
    let mut image = laid(P3);
    listing_lines(rt, "P3", &image[0..507])?;
    longest(rt, &image)?;
    set(&mut image, 80, 8, 330); // indexOffset
    listing_lines(rt, "P4", &image[0..507])?;
    set(&mut image, 72, 1, 3); // image major
    listing_lines(rt, "P4, major version 3", &image[0..507])?;
    let second = laid(SECOND);
    listing_lines(rt, "a table of the second kind", &second[0..302])
}
