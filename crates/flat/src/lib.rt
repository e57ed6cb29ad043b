// Flat sector files: all sectors of a disc by rising address, in a plain file. The public calls, `export`, `export_exact` and `import`, ask nothing of their
// caller, refuse by number and place, and a call that is refused changes no byte of what it was lent.
//
// Cost of an export by either rule: opening, and the checks of all sectors, in which each block is summed once (see `checking`); then at most four passes over
// the table, and one over what is written.
#![tactic(auto)]

ghost use Rattle.std.specs.Prelude.{◌≡◌, ◌+◌, ◌*◌, ◌≤◌, ◌<◌, length};
ghost use Rattle.fields.specs.Bytes.{overwrite};
ghost use Rattle.format.specs.Tests.{same, differs, below, ◌and◌};
ghost use Rattle.format.specs.Refusals.{refusal, row, first_refusal};
ghost use Rattle.format.specs.Writing.{outcome};
ghost use Rattle.format.specs.Exporting.{flat_size, piece_at, flat_file, gap_count, size_verdict, file_verdict, export_exact, export};
ghost use Rattle.format.specs.Answers.{answered};
ghost use Rattle.opening.specs.Images.{held};
ghost use Rattle.search.specs.Found.{Checked};
ghost use Rattle.flat.specs.Exports.{Uniform};

use fields::{clear, copy, part};
use format::EntryNumber;
pub use format::{Check, Flat, Placed, Refusal, Stamp};
// an import, with its contract
pub use importing::import;
use opening::Image;

// The size of the lowest written sector; 0 where none is written, as `flat_size` has it.
fn flat_size<'a>(image: Image<'a>) -> u64
    requires { Checked image.bytes.now (held image) }
    ensures { result ≡ flat_size image.entry.bytes.now (held image.entry) }
{
    // an iteration for each sector, up to the first that is written
    for n in 0..image.found.count() {
        if let Some(p) = search::slot_at(image, EntryNumber(n)) {
            return p.size;
        }
    }
    0
}

// 40 if a written sector has another size.
fn sizes_verdict<'a>(image: Image<'a>, size: u64) -> Result<(), Refusal>
    requires { Checked image.bytes.now (held image) × (size ≡ flat_size image.bytes.now (held image)) }
    ensures { result ≡ first_refusal (size_verdict image.entry.bytes.now (held image.entry)) (held image.entry).count 0 }
{
    // an iteration for each sector, up to the first whose size differs
    for n in 0..image.found.count() {
        if let Some(p) = search::slot_at(image, EntryNumber(n)) {
            if p.size != size {
                return Err(Refusal::of(Check::SizesDiffer));
            }
        }
    }
    Ok(())
}

// 41 if the buffer has no room for so many sectors of this size. It divides, since their product could be too large for a number.
fn room_verdict(out: &[u8], count: u64, size: u64) -> Result<(), Refusal>
    ensures { result ≡ row (below (length out.now) (count * size)) (refusal 41 0) }
{
    if size == 0 {
        return Ok(());
    }
    let length = out.len() as u64;
    if length / size < count {
        return Err(Refusal::of(Check::FileBufferTooShort));
    }
    Ok(())
}

// Writes what stands in the file for table entry n: its sector, or zeros.
fn put_piece<'a, 'b>(image: Image<'a>, n: EntryNumber, out: &'b mut [u8], at: u64, size: u64)
    requires { Uniform image.bytes.now (held image) size × (n.0 < (held image).count) × (at + size ≤ length out.old) }
    ensures { out.new ≡ overwrite out.old at (piece_at image.entry.bytes.now (held image.entry) n.0) }
{
    match search::slot_at(image, n) {
        None => clear(out, at, size),
        Some(p) => copy(out, at, part(image.bytes, p.start.0, p.size)),
    }
}

// Writes the file, whose pieces have this size, to the front of `out`; how many bytes that is.
fn put_file<'a, 'b>(image: Image<'a>, out: &'b mut [u8], size: u64) -> u64
    requires { Uniform image.bytes.now (held image) size × ((held image).count * size ≤ length out.old) }
    ensures { (result ≡ length (flat_file image.entry.bytes.now (held image.entry))) × (out.new ≡ overwrite out.old 0 (flat_file image.entry.bytes.now (held image.entry))) }
{
    let mut at: u64 = 0;
    // an iteration for each sector
    for n in 0..image.found.count() {
        put_piece(image, EntryNumber(n), out, at, size);
        at += size;
    }
    at
}

// What both rules do once the sectors are checked: 40, 41, and the file.
fn export_file<'a, 'b>(image: Image<'a>, out: &'b mut [u8]) -> Result<u64, Refusal>
    requires { Checked image.bytes.now (held image) }
    ensures { answered result out.new ≡ outcome out.old (file_verdict image.entry.bytes.now (held image.entry) out.old) (length (flat_file image.entry.bytes.now (held image.entry))) (overwrite out.old 0 (flat_file image.entry.bytes.now (held image.entry))) }
{
    let size = flat_size(image);
    sizes_verdict(image, size)?;
    room_verdict(out, image.found.count(), size)?;
    Ok(put_file(image, out, size))
}

// The exact export of an opened disc.
fn export_exact_at<'a, 'b>(image: Image<'a>, out: &'b mut [u8]) -> Result<u64, Refusal>
    ensures { answered result out.new ≡ export_exact image.entry.bytes.now out.old }
{
    checking::every_verdict(image)?;
    export_file(image, out)
}

// How many sectors are not written.
fn count_gaps<'a>(image: Image<'a>) -> u64
    ensures { result ≡ gap_count image.entry.bytes.now (held image.entry) }
{
    let mut gaps: u64 = 0;
    // an iteration for each sector
    for n in 0..image.found.count() {
        if image.found.is_unwritten(image.table_entry(EntryNumber(n))) {
            gaps += 1;
        }
    }
    gaps
}

// Whether a disc of so many sectors, of which so many are not written, has sectors and none that is written.
#[tactic(auto, using(format::proofs::Tests::each_test))]
fn is_blank(count: u64, gaps: u64) -> bool
    ensures { result ≡ (differs count 0 and same gaps count) }
{
    count != 0 && gaps == count
}

// The export of an opened disc.
fn export_at<'a, 'b>(image: Image<'a>, out: &'b mut [u8]) -> Result<Flat, Refusal>
    ensures { answered result out.new ≡ export image.entry.bytes.now out.old }
{
    checking::sectors_verdict(image)?;
    let filled = count_gaps(image);
    if is_blank(image.found.count(), filled) {
        return Err(Refusal::of(Check::NotWritten));
    }
    let length = export_file(image, out)?;
    Ok(Flat { length, filled })
}

// Fills the front of `out` with all sectors of the disc by rising address, and answers how many bytes that is; or says why it can't: opening's numbers, the
// first refusal of a sector by rising address, 21 too, 40 where sizes differ, 41 where the buffer is too short. Later bytes stay as they are.
pub fn export_exact(image: &[u8], out: &mut [u8]) -> Result<u64, Refusal>
    ensures { answered result out.new ≡ export_exact image.now out.old }
{
    let opened = opening::open(image)?;
    export_exact_at(opened, out)
}

// The same with zeros in place of each sector that is not written, as many as the lowest written one has bytes; it answers too how many sectors these are. 21
// is given only where a disc has sectors and none is written, after the sectors' other numbers and before 40.
pub fn export(image: &[u8], out: &mut [u8]) -> Result<Flat, Refusal>
    ensures { answered result out.new ≡ export image.now out.old }
{
    let opened = opening::open(image)?;
    export_at(opened, out)
}
