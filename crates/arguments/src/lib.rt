// Internal: the checks of a call's arguments, before an image is looked at: 30 to 34 of document 01, all of creating's, 35 included, and
// 4/13's of an import, 42 among them, and 8/13's of a flattening.
#![tactic(auto)]

ghost use Rattle.std.specs.Prelude.{◌≡◌, ◌*◌, length};
ghost use Rattle.format.specs.Tests.{same, differs, below, ◌or◌};
ghost use Rattle.format.specs.Refusals.{refusal, row};
ghost use Rattle.format.specs.Layouts.{application_length};
ghost use Rattle.format.specs.Writing.{most_sectors, largest_size, most_addresses, longest_buffer, buffer_verdict};
ghost use Rattle.format.specs.Creating.{create_verdict};
ghost use Rattle.format.specs.Committing.{rising, arguments_verdict};
ghost use Rattle.format.specs.Importing.{import_verdict};
ghost use Rattle.format.specs.Flattening.{lent_verdict};

use format::{
    APPLICATION_LENGTH, CREATED_ENTRIES, Check, LARGEST_SIZE, MOST_ADDRESSES, MOST_SECTORS, Refusal,
};

const LONGEST_BUFFER: u64 = 4294967296;

// A new image but for its table's entries: behind these are an index's header and one entry.
const CREATED_LENGTH: u64 = CREATED_ENTRIES + 20 + 16;

// A new image's sector count: check 30.
#[tactic(auto, using(format::proofs::Tests::either_test))]
fn count_refused(count: u64) -> bool
    ensures { result ≡ (same count 0 or below most_sectors count) }
{
    count == 0 || MOST_SECTORS < count
}

// A buffer's length: check 31.
fn length_verdict(buffer: &[u8]) -> Result<(), Refusal>
    ensures { result ≡ row (below longest_buffer (length buffer.now)) (refusal 31 0) }
{
    if LONGEST_BUFFER < buffer.len() as u64 {
        return Err(Refusal::of(Check::BufferTooLong));
    }
    Ok(())
}

// The application's name: check 33.
fn name_verdict(application: &[u8]) -> Result<(), Refusal>
    ensures { result ≡ row (differs (length application.now) application_length) (refusal 33 0) }
{
    if application.len() as u64 != APPLICATION_LENGTH {
        return Err(Refusal::of(Check::LengthMismatch));
    }
    Ok(())
}

// A creation: 31, 30, 33, 35.
pub fn create_verdict(buffer: &[u8], count: u64, application: &[u8]) -> Result<(), Refusal>
    ensures { result ≡ create_verdict buffer.now count application.now }
{
    length_verdict(buffer)?;
    if count_refused(count) {
        return Err(Refusal::of(Check::SizeRefused));
    }
    name_verdict(application)?;
    if (buffer.len() as u64) < CREATED_LENGTH + 8 * count {
        return Err(Refusal::of(Check::NoRoom));
    }
    Ok(())
}

// The buffer of a commit or a rollback: 31, 32.
pub fn buffer_verdict(buffer: &[u8], used: u64) -> Result<(), Refusal>
    ensures { result ≡ buffer_verdict buffer.now used }
{
    length_verdict(buffer)?;
    if (buffer.len() as u64) < used {
        return Err(Refusal::of(Check::UsedPastBuffer));
    }
    Ok(())
}

// A commit's sector size and number of addresses: check 30.
#[tactic(auto, using(format::proofs::Tests::either_test))]
fn size_refused(size: u64, count: u64) -> bool
    ensures { result ≡ (same size 0 or below largest_size size or below most_addresses count) }
{
    size == 0 || LARGEST_SIZE < size || MOST_ADDRESSES < count
}

// Whether the addresses are strictly rising.
fn is_rising(addresses: &[i64]) -> bool
    ensures { result ≡ rising addresses.now }
{
    // an iteration for each address but the first, up to the first that is not above the one before it
    for k in 1..addresses.len() {
        let x = addresses[k - 1];
        let y = addresses[k];
        if y <= x {
            return false;
        }
    }
    true
}

// A commit's arguments: 31, 32, 30, 33, 34. One pass over the addresses.
pub fn commit_verdict(
    buffer: &[u8],
    used: u64,
    addresses: &[i64],
    size: u64,
    sectors: &[u8],
) -> Result<(), Refusal>
    ensures { result ≡ arguments_verdict buffer.now used addresses.now size sectors.now }
{
    buffer_verdict(buffer, used)?;
    let count = addresses.len() as u64;
    if size_refused(size, count) {
        return Err(Refusal::of(Check::SizeRefused));
    }
    if sectors.len() as u64 != count * size {
        return Err(Refusal::of(Check::LengthMismatch));
    }
    if is_rising(addresses) {
        return Ok(());
    }
    Err(Refusal::of(Check::AddressesNotRising))
}

// An import's sector size and the length of its file: check 30.
#[tactic(auto, using(format::proofs::Tests::either_test))]
fn file_refused(size: u64, length: u64) -> bool
    ensures { result ≡ (same size 0 or below largest_size size or same length 0 or below (most_addresses * size) length) }
{
    size == 0 || LARGEST_SIZE < size || length == 0 || MOST_ADDRESSES * size < length
}

// An import's arguments: 31, 30, 42, 33.
pub fn import_verdict(
    buffer: &[u8],
    file: &[u8],
    size: u64,
    application: &[u8],
) -> Result<(), Refusal>
    ensures { result ≡ import_verdict buffer.now file.now size application.now }
{
    length_verdict(buffer)?;
    let length = file.len() as u64;
    if file_refused(size, length) {
        return Err(Refusal::of(Check::SizeRefused));
    }
    if length % size != 0 {
        return Err(Refusal::of(Check::PartialSector));
    }
    name_verdict(application)
}

// The buffer and the application's name of a flattening: 31, 33.
pub fn lent_verdict(buffer: &[u8], application: &[u8]) -> Result<(), Refusal>
    ensures { result ≡ lent_verdict buffer.now application.now }
{
    length_verdict(buffer)?;
    name_verdict(application)
}
