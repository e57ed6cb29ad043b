// Internal: one sector of an opened image, checks 20 to 27 of document 01 in its order, and 73 of 11/13.
//
// Cost of finding one: at most one pass over the index, for the block's entry, and one over the block, for its checksum.
#![tactic(auto)]

ghost use Rattle.std.specs.Prelude.{◌≡◌, ◌+◌, ◌*◌, ◌/◌, ◌≤◌, ◌<◌, length};
ghost use Rattle.crc64.specs.Crc.{crc_of};
ghost use Rattle.format.specs.Tests.{same, differs, at_least, ◌and◌};
ghost use Rattle.format.specs.Refusals.{refusal, row, answer};
ghost use Rattle.format.specs.Layouts.{DBLK, index_offset, index_header_length, entry_count, entry_length, entries_from, entries, block_length, sector_size, block_cmp_crc64, block_crc64, block_payload};
ghost use Rattle.format.specs.Opening.{is_user_data, offsets_of, sums_differ, open_verdict, opening};
ghost use Rattle.format.specs.Reading.{has, pointer_at, block_malformed, block_verdict, item_verdict, pointer_verdict, sector_verdict, address_verdict, pointer_of, place_of, locate, read};
ghost use Rattle.format.specs.Facts.{BlockOk, ItemOk};
ghost use Rattle.format.specs.Answers.{bytes_read};
ghost use Rattle.opening.specs.Images.{held};
ghost use Rattle.sectors.specs.Found.{Known, is_known};

use fields::{get, part, room};
use format::{
    ByteOffset, Check, Entry, EntryNumber, INDEX_OFFSET, Place, Pointer, Refusal, SectorAddress,
};
use index::{Index, entry, is_user_data};
use opening::Image;

// An address to locate, and a block that is known to be intact, if there is one.
#[derive(Clone, Copy)]
pub struct Visit {
    pub address: SectorAddress,
    pub known: Option<ByteOffset>,
}

// Where a sector lies, and a block that is known to be intact: the sector's, or where it is refused the one handed in.
#[derive(Clone, Copy)]
pub struct Near {
    pub located: Result<Place, Refusal>,
    pub known: Option<ByteOffset>,
}

// The entry names a data block at b, of user data.
#[tactic(auto, using(format::proofs::Tests::each_test))]
fn names_block(e: Entry, b: ByteOffset) -> bool
    ensures { result ≡ (is_user_data DBLK e and same e.offset.0 b.0) }
{
    // the offset first, in which most entries differ
    e.offset == b && is_user_data(e, b"DBLK")
}

// One of the `left` index entries from `first` on names a data block at b. At most one pass over them.
pub fn names(s: &[u8], first: ByteOffset, left: u64, b: ByteOffset) -> bool
    requires { first.0 + entry_length * left ≤ length s.now }
    ensures { result ≡ has b.0 (offsets_of DBLK (entries_from s.now left first.0)) }
{
    // an iteration for each entry, up to the first that names the block
    for k in 0..left {
        if names_block(entry(s, ByteOffset(first.0 + 16 * k)), b) {
            return true;
        }
    }
    false
}

// The index names a data block at b. At most one pass over its entries.
pub fn is_indexed<'a>(index: Index<'a>, b: ByteOffset) -> bool
    ensures { result ≡ has b.0 (offsets_of DBLK (entries index.entry.bytes.now index.entry.at.0)) }
{
    names(index.bytes, ByteOffset(index.at.0 + 20), index.count(), b)
}

// The block at b: check 25.
#[tactic(auto, using(format::proofs::Tests::either_test), unfolding(format::specs::Reading::block_malformed))]
fn block_malformed(s: &[u8], b: ByteOffset) -> bool
    requires { b.0 + 36 ≤ length s.now }
    ensures { result ≡ block_malformed s.now b.0 }
{
    let block = b.0;
    let size = get(s, block + 8, 4);
    let length = get(s, block + 16, 4);
    get(s, block + 4, 2) != 1 || size == 0 || get(s, block + 12, 4) != length || length % size != 0
}

// The block at b: checks 23 to 25, and 23 of its payload.
pub fn block_verdict(s: &[u8], b: ByteOffset) -> Result<(), Refusal>
    ensures { result ≡ block_verdict s.now b.0 }
{
    let block = b.0;
    if room(s, block) < 36 {
        return Err(Refusal::at(Check::BlockOutside, b));
    }
    if get(s, block + 6, 2) != 0 {
        return Err(Refusal::at(Check::BlockCompressed, b));
    }
    if block_malformed(s, b) {
        return Err(Refusal::at(Check::BlockMalformed, b));
    }
    if room(s, block + 36) < get(s, block + 16, 4) {
        return Err(Refusal::at(Check::BlockOutside, b));
    }
    Ok(())
}

// The item of p, in a block that passed: check 26.
pub fn number_verdict(s: &[u8], p: Pointer) -> Result<(), Refusal>
    requires { BlockOk s.now p.block.0 }
    ensures { result ≡ row (at_least p.item.0 (block_length s.now p.block.0 / sector_size s.now p.block.0)) (refusal 26 p.block.0) }
{
    let place = p.block;
    let block = place.0;
    let length = get(s, block + 16, 4);
    let size = get(s, block + 8, 4);
    if length / size <= p.item.0 {
        return Err(Refusal::at(Check::ItemOutside, p.block));
    }
    Ok(())
}

// Whether one of the checksums of the block at b, which passed, is wrong: check 27. One pass over its payload.
pub fn block_sums_differ(s: &[u8], b: ByteOffset) -> bool
    requires { BlockOk s.now b.0 }
    ensures { result ≡ sums_differ (crc_of (block_payload s.now b.0)) (block_cmp_crc64 s.now b.0) (block_crc64 s.now b.0) }
{
    let block = b.0;
    tables::sums_differ(
        part(s, block + 36, get(s, block + 16, 4)),
        get(s, block + 20, 8),
        get(s, block + 28, 8),
    )
}

// The item of p: checks 23 to 27. One pass over the block for its checksum.
fn item_verdict(s: &[u8], p: Pointer) -> Result<(), Refusal>
    ensures { result ≡ item_verdict s.now p }
{
    let b = p.block;
    block_verdict(s, b)?;
    number_verdict(s, p)?;
    if block_sums_differ(s, b) {
        return Err(Refusal::at(Check::BlockChecksum, b));
    }
    Ok(())
}

// b is the block that is known.
#[tactic(auto, unfolding(crate::specs::Found::is_known, format::specs::Tests::same))]
pub fn is_known(b: ByteOffset, known: Option<ByteOffset>) -> bool
    ensures { result ≡ is_known known b.0 }
{
    known == Some(b)
}

// What p, whose table entry stands at `place`, points to: checks 22 to 27. Of the block that is known only the item's number is looked at.
fn pointer_verdict<'a>(
    image: Image<'a>,
    place: ByteOffset,
    p: Pointer,
    known: Option<ByteOffset>,
) -> Result<(), Refusal>
    requires { Known image.bytes.now known }
    ensures { result ≡ pointer_verdict image.entry.bytes.now (entries image.entry.bytes.now (index_offset image.entry.bytes.now)) place.0 p }
{
    let s = image.bytes;
    let b = p.block;
    if is_known(b, known) {
        return number_verdict(s, p);
    }
    if is_indexed(image.index(), b) {
        return item_verdict(s, p);
    }
    Err(Refusal::at(Check::BlockNotIndexed, place))
}

// The sector of table entry n: checks 21 to 27, 73. Its table entry is read once; of the block that is known only the
// item's number is looked at.
fn find<'a>(image: Image<'a>, n: EntryNumber, known: Option<ByteOffset>) -> Result<Pointer, Refusal>
    requires { (n.0 < (held image).count) × Known image.bytes.now known }
    ensures { result ≡ answer (sector_verdict image.entry.bytes.now (entries image.entry.bytes.now (index_offset image.entry.bytes.now)) (held image.entry) n.0) (pointer_at image.entry.bytes.now (held image.entry) n.0) }
{
    let t = image.found;
    let e = image.table_entry(n);
    if t.is_unwritten(e) {
        return Err(Refusal::of(Check::NotWritten));
    }
    if t.is_unknown(e) {
        return Err(Refusal::of(Check::UnknownStatus));
    }
    let p = t.decoded(e);
    pointer_verdict(image, t.entry_place(n), p, known)?;
    Ok(p)
}

// The sector at address a: check 20, and its table entry's.
fn find_address<'a>(
    image: Image<'a>,
    a: SectorAddress,
    known: Option<ByteOffset>,
) -> Result<Pointer, Refusal>
    requires { Known image.bytes.now known }
    ensures { result ≡ answer (address_verdict image.entry.bytes.now (entries image.entry.bytes.now (index_offset image.entry.bytes.now)) (held image.entry) a.0) (pointer_of image.entry.bytes.now (held image.entry) a.0) }
{
    match image.found.entry_number(a) {
        Some(n) => find(image, n, known),
        None => Err(Refusal::of(Check::AddressOutside)),
    }
}

// Where the item of p lies.
pub fn place(s: &[u8], p: Pointer) -> Place
    requires { ItemOk s.now p.block.0 p.item.0 }
    ensures { result ≡ place_of s.now p }
{
    let b = p.block;
    let block = b.0;
    let item = p.item;
    let size = get(s, block + 8, 4);
    let start = ByteOffset(block + 36 + item.0 * size);
    Place { start, size }
}

// Where the sector at an address lies. A caller that goes from address to address hands in the block that the last answer left known, so that
// neighbours in one intact block cost one pass over the index and the block, not one each.
pub fn locate_near<'a>(image: Image<'a>, v: Visit) -> Near
    requires { Known image.bytes.now v.known }
    ensures { (result.located ≡ locate image.entry.bytes.now v.address.0) × Known image.entry.bytes.now result.known }
{
    let known = v.known;
    match find_address(image, v.address, known) {
        Err(r) => Near {
            located: Err(r),
            known,
        },
        Ok(p) => Near {
            located: Ok(place(image.bytes, p)),
            known: Some(p.block),
        },
    }
}

// Where the sector at address a lies.
pub fn locate<'a>(image: Image<'a>, a: SectorAddress) -> Result<Place, Refusal>
    ensures { result ≡ locate image.entry.bytes.now a.0 }
{
    let near = locate_near(
        image,
        Visit {
            address: a,
            known: None,
        },
    );
    near.located
}

// The same of an image that is not opened yet: opening's numbers come first.
pub fn locate_in(image: &[u8], a: SectorAddress) -> Result<Place, Refusal>
    ensures { result ≡ locate image.now a.0 }
{
    match opening::open(image) {
        Ok(opened) => locate(opened, a),
        // the refusal's arm is written out, not left to `?`, so that an edit of it is refused at a fact
        Err(r) => Err(r),
    }
}

// The sector at address a: the part of the lent bytes that `locate` names, and the empty part exactly where it refuses,
// which is what `bytes_read` says of a read.
pub fn read<'a>(image: Image<'a>, a: SectorAddress) -> &'a [u8]
    ensures { result.now ≡ bytes_read (read image.entry.bytes.now a.0) }
{
    match locate(image, a) {
        Err(_) => part(image.bytes, 0, 0),
        Ok(p) => part(image.bytes, p.start.0, p.size),
    }
}
