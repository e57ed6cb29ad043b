// The library: the public calls. None asks anything of its caller; each refuses by the numbers of document 01, in its order, and says
// where in the image. A call that is refused changes no byte of what it was lent. An image is the first `used` bytes of a lent buffer.
#![tactic(auto)]

ghost use Rattle.std.specs.Prelude.{◌≡◌};
ghost use Rattle.format.specs.Opening.{sector_count};
ghost use Rattle.format.specs.Reading.{locate, read};
ghost use Rattle.format.specs.Creating.{create};
ghost use Rattle.format.specs.Committing.{commit};
ghost use Rattle.format.specs.RollingBack.{rollback};
ghost use Rattle.format.specs.Answers.{bytes_read, answered};

use format::CREATED_ENTRIES;
pub use format::{AddressRange, ByteOffset, Check, Place, Placed, Refusal, SectorAddress, Stamp};

// How many sectors the image has and which address is the lowest, or why it does not open: 1 to 14, 70 to 72.
pub fn sector_count(image: &[u8]) -> Result<AddressRange, Refusal>
    ensures { result ≡ sector_count image.now }
{
    match opening::open(image) {
        Ok(opened) => Ok(opened.found.range()),
        // the refusal's arm is written out, not left to `?`, so that an edit of it is refused at a fact
        Err(refusal) => Err(refusal),
    }
}

// Where the sector at address a lies in the image, or why it can't be read: opening's numbers, 20 to 27, 73. Beside opening it costs at
// most one pass over the index and one over the sector's block.
pub fn locate(image: &[u8], a: SectorAddress) -> Result<Place, Refusal>
    ensures { result ≡ locate image.now a.0 }
{
    sectors::locate_in(image, a)
}

// The sector at address a: the part of the image that `locate` names, and the empty part exactly where `locate` refuses.
pub fn read<'a>(image: &'a [u8], a: SectorAddress) -> &'a [u8]
    ensures { result.now ≡ bytes_read (read image.now a.0) }
{
    match opening::open(image) {
        Err(_) => fields::part(image, 0, 0),
        Ok(opened) => sectors::read(opened, a),
    }
}

// Makes a new image at the start of the buffer, of `count` sectors that are not written, or says why it can't: 31, 30, 33, 35. The
// application's name has 64 bytes; times are stored as they are handed in. Later bytes of the buffer stay as they are. The answer is
// how many bytes the image has, and where its index stands. Linear in the image's bytes.
pub fn create<'a, 'b>(buffer: &'b mut [u8], count: u64, stamp: Stamp<'a>) -> Result<Placed, Refusal>
    ensures { answered result buffer.new ≡ create buffer.old count stamp.entry.application.now stamp.entry.major stamp.entry.minor stamp.entry.media_type stamp.entry.created stamp.entry.written }
{
    arguments::create_verdict(buffer, count, stamp.application)?;
    records::put_image(buffer, count, stamp);
    let at = CREATED_ENTRIES + 8 * count;
    let used = at + 20 + 16; // an index's header and one entry
    let index = ByteOffset(at);
    Ok(Placed { used, index })
}

// Commits sectors of `size` bytes, which stand one after another in `sectors`, to the addresses of the list: these read as handed in
// from then on, every other as before. Or says why it can't: 31, 32, 30, 33, 34, opening's numbers, 74, 20, the refusal of the first sector of
// the disc that is refused other than with 21, 35. The answer is the new `used`, and where the new index stands. No byte changes below the
// old `used` but the header's indexOffset and lastWrittenTime, and none from the new one on.
//
// Cost, with n addresses, a disc of E sectors and I index entries: 2 n (E + n) comparisons of sectors, each of which ends at the first
// difference; the check of all sectors (see `checking`), in which each block that the index names is summed once; else linear in the image's
// and the appended bytes.
pub fn commit(
    buffer: &mut [u8],
    used: u64,
    addresses: &[i64],
    size: u64,
    sectors: &[u8],
    time: u64,
) -> Result<Placed, Refusal>
    ensures { answered result buffer.new ≡ commit buffer.old used addresses.now size sectors.now time }
{
    arguments::commit_verdict(buffer, used, addresses, size, sectors)?;
    match opening::open(fields::part(buffer, 0, used)) {
        Ok(opened) => {
            let t = opened.found;
            appending::commit(buffer, used, t, addresses, size, sectors, time)
        }
        // as in `sector_count`
        Err(r) => Err(r),
    }
}

// Makes the index at `offset` the disc's: where a creation or a commit answered that offset, the disc reads as right after that call. Or
// says why it can't: 31, 32, 1 to 3, then opening's other numbers with this offset in place of the header's, 74. It sets the header's
// indexOffset and lastWrittenTime alone. The answer is `used` and the offset. Linear in the index's and the table's bytes.
pub fn rollback(
    buffer: &mut [u8],
    used: u64,
    offset: ByteOffset,
    time: u64,
) -> Result<Placed, Refusal>
    ensures { answered result buffer.new ≡ rollback buffer.old used offset.0 time }
{
    arguments::buffer_verdict(buffer, used)?;
    opening::writable_verdict(fields::part(buffer, 0, used), offset)?;
    records::set_header(buffer, offset, time);
    // the image stays as long as it is, so that what was committed later can be had back
    let end = used;
    Ok(Placed {
        used: end,
        index: offset,
    })
}
