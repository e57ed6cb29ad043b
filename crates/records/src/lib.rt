// Internal: the records of an image as they are written. A header that holds a checksum is written before a payload that
// stands already, from which the checksum is computed.
//
// Cost: one pass over the payload.
#![tactic(auto)]

ghost use Rattle.std.specs.Prelude.{[], ◌∷◌, ◌≡◌, ◌+◌, ◌*◌, ◌≤◌, length};
ghost use Rattle.fields.specs.Bytes.{part, overwrite};
ghost use Rattle.fields.specs.Layout.{num, raw, layout};
ghost use Rattle.format.specs.Layouts.{header_length, application_length, image_major_at, header_bytes, entry_bytes, user_data_entry, index_header, table_header};
ghost use Rattle.format.specs.Writing.{set_header};
ghost use Rattle.format.specs.Creating.{created_used, created_bytes};
ghost use Rattle.records.specs.Blocks.{header_for};

use crc64::checksum;
use fields::{clear, copy, get, part, put};
use format::{
    APPLICATION, APPLICATION_MAJOR, APPLICATION_MINOR, ByteOffset, CREATED_ENTRIES, CREATION_TIME,
    Entry, HEADER_LENGTH, IMAGE_MAJOR, IMAGE_MINOR, INDEX_OFFSET, LAST_WRITTEN_TIME, MEDIA_TYPE,
    Stamp,
};

// The fields that begin a block and a table: identifier, type 1, compression 0.
fn put_identifier(buf: &mut [u8], at: u64, letters: &[u8])
    requires { (at + 8 ≤ length buf.old) × (length letters.now ≡ 4) }
    ensures { buf.new ≡ overwrite buf.old at (layout (raw letters.now ∷ num 2 1 ∷ num 2 0 ∷ [])) }
{
    copy(buf, at, letters);
    put(buf, at + 4, 2, 1);
    put(buf, at + 6, 2, 0);
}

// The fields that end the header of a block and of a table: cmpLength, length, cmpCrc64, crc64. The lengths have `width` bytes.
fn put_sums(buf: &mut [u8], at: u64, width: u64, n: u64, sum: u64)
    requires { (at + 2 * width + 16 ≤ length buf.old) × (width ≤ 8) }
    ensures { buf.new ≡ overwrite buf.old at (layout (num width n ∷ num width n ∷ num 8 sum ∷ num 8 sum ∷ [])) }
{
    put(buf, at, width, n);
    put(buf, at + width, width, n);
    put(buf, at + 2 * width, 8, sum);
    put(buf, at + 2 * width + 8, 8, sum);
}

// The three headers below differ in which fields they have, not in a type or a size: one function over them would take the list of fields.

// Writes the header of a data block at `at` whose sectors, `stored` of `size` bytes, stand after it. Where nothing is stored there is no block.
pub fn seal_block(buf: &mut [u8], at: ByteOffset, size: u64, stored: u64)
    requires { at.0 + 36 + stored * size ≤ length buf.old }
    ensures { buf.new ≡ overwrite buf.old at.0 (header_for stored size (part buf.old (at.0 + 36) (stored * size))) }
{
    if stored == 0 {
        return;
    }
    let block = at.0;
    let n = stored * size;
    let sum = checksum(part(buf, block + 36, n));
    put_identifier(buf, block, b"DBLK");
    put(buf, block + 8, 4, size);
    put_sums(buf, block + 12, 4, n, sum);
}

// Writes the header of a table at `at` whose entries stand after it.
pub fn seal_table(buf: &mut [u8], at: ByteOffset, shift: u64, count: u64)
    requires { at.0 + 49 + 8 * count ≤ length buf.old }
    ensures { buf.new ≡ overwrite buf.old at.0 (table_header shift count (part buf.old (at.0 + 49) (8 * count))) }
{
    let table = at.0;
    let n = 8 * count;
    let sum = checksum(part(buf, table + 49, n));
    put_identifier(buf, table, b"DDT*");
    put(buf, table + 8, 1, shift);
    put(buf, table + 9, 8, count);
    put_sums(buf, table + 17, 8, n, sum);
}

// Writes the header of an index at `at` whose entries stand after it.
pub fn seal_index(buf: &mut [u8], at: ByteOffset, count: u64)
    requires { at.0 + 20 + 16 * count ≤ length buf.old }
    ensures { buf.new ≡ overwrite buf.old at.0 (index_header count (part buf.old (at.0 + 20) (16 * count))) }
{
    let index = at.0;
    let sum = checksum(part(buf, index + 20, 16 * count));
    copy(buf, index, b"IDX2");
    put(buf, index + 4, 8, count);
    put(buf, index + 12, 8, sum);
}

// Writes an index entry.
pub fn put_entry(buf: &mut [u8], at: ByteOffset, e: Entry)
    requires { at.0 + 16 ≤ length buf.old }
    ensures { buf.new ≡ overwrite buf.old at.0 (entry_bytes e) }
{
    let p = at.0;
    put(buf, p, 4, e.blockType);
    put(buf, p + 4, 4, e.dataType);
    put(buf, p + 8, 8, e.offset.0);
}

// An index entry for user data in a block with this identifier.
pub fn user_data_entry(letters: &[u8; 4], offset: ByteOffset) -> Entry
    ensures { result ≡ user_data_entry letters.now offset.0 }
{
    let blockType = get(letters, 0, 4);
    Entry {
        blockType,
        dataType: 1,
        offset,
    }
}

// The header's versions and mediaType: those of the image are 2.0.
fn put_versions(buf: &mut [u8], major: u8, minor: u8, media_type: u32)
    requires { image_major_at + 8 ≤ length buf.old }
    ensures { buf.new ≡ overwrite buf.old image_major_at (layout (num 1 2 ∷ num 1 0 ∷ num 1 major ∷ num 1 minor ∷ num 4 media_type ∷ [])) }
{
    put(buf, IMAGE_MAJOR, 1, 2);
    put(buf, IMAGE_MINOR, 1, 0);
    put(buf, APPLICATION_MAJOR, 1, major as u64);
    put(buf, APPLICATION_MINOR, 1, minor as u64);
    put(buf, MEDIA_TYPE, 4, media_type as u64);
}

// Writes the header of a new image.
fn put_header<'a, 'b>(buf: &'b mut [u8], stamp: Stamp<'a>, index: ByteOffset)
    requires { (header_length ≤ length buf.old) × (length stamp.application.now ≡ application_length) }
    ensures { buf.new ≡ overwrite buf.old 0 (header_bytes stamp.entry.application.now stamp.entry.major stamp.entry.minor stamp.entry.media_type index.0 stamp.entry.created stamp.entry.written) }
{
    copy(buf, 0, b"AARUFRMT");
    copy(buf, APPLICATION, stamp.application);
    put_versions(buf, stamp.major, stamp.minor, stamp.media_type);
    put(buf, INDEX_OFFSET, 8, index.0);
    put(buf, CREATION_TIME, 8, stamp.created);
    put(buf, LAST_WRITTEN_TIME, 8, stamp.written);
}

// Sets indexOffset and lastWrittenTime.
pub fn set_header(buf: &mut [u8], offset: ByteOffset, time: u64)
    requires { header_length ≤ length buf.old }
    ensures { buf.new ≡ set_header buf.old offset.0 time }
{
    put(buf, INDEX_OFFSET, 8, offset.0);
    put(buf, LAST_WRITTEN_TIME, 8, time);
}

// Writes a new image: header, a table of `count` entries that are 0, an index of the table's entry.
#[tactic(auto, unfolding(format::specs::Creating::created_used, format::specs::Creating::created_index_at))]
pub fn put_image<'a, 'b>(buf: &'b mut [u8], count: u64, stamp: Stamp<'a>)
    requires { (created_used count ≤ length buf.old) × (length stamp.application.now ≡ application_length) }
    ensures { buf.new ≡ overwrite buf.old 0 (created_bytes count stamp.entry.application.now stamp.entry.major stamp.entry.minor stamp.entry.media_type stamp.entry.created stamp.entry.written) }
{
    let index = CREATED_ENTRIES + 8 * count;
    put_header(buf, stamp, ByteOffset(index));
    clear(buf, CREATED_ENTRIES, 8 * count);
    seal_table(buf, ByteOffset(HEADER_LENGTH), 0, count);
    let e = user_data_entry(b"DDT*", ByteOffset(HEADER_LENGTH));
    put_entry(buf, ByteOffset(index + 20), e);
    seal_index(buf, ByteOffset(index), 1);
}
