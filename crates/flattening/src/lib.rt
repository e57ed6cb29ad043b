// Flattening a disc over its parent (8/13): the public call `flatten`. No sector of a new disc is written, so only the pair itself is searched. Whether there
// is room, 35, is decided before anything is written: there is where all sectors would fit; else those that equal none at a lower address are counted.
//
// Cost, with E addresses and n sectors of the pair: opening both images, and the checks of all sectors, in which each data block of either is summed once at
// most (see `pair_checking`); some passes over the addresses. Where there is room for all sectors, each is compared with the stored ones twice, at most n n / 2
// times in all each time; else with those at lower addresses, at most E n / 2 times in all, and then with the stored ones once. A comparison ends at the first
// difference, or, with those at lower addresses, within 64 bytes of it, and a search at the first that is equal. Else linear in what is read and written.
#![tactic(auto)]

ghost use mathlib.Core.List.{flatten as flattened};
ghost use Rattle.std.specs.Prelude.{◌≡◌, ℕ, ◌+◌, ◌≤◌, length};
ghost use Rattle.fields.specs.Bytes.{overwrite};
ghost use Rattle.format.specs.declared.TableKind.TheVariants.{First};
ghost use Rattle.format.specs.Layouts.{block_header_length};
ghost use Rattle.format.specs.Flattening.{size_of, lent_verdict, flatten};
ghost use Rattle.format.specs.Answers.{answered};
ghost use Rattle.opening.specs.Images.{held};
ghost use Rattle.pairs.specs.Sectors.{sector_of, written_in};
ghost use Rattle.composing.specs.Composes.{stored_of, layout_of, filled, Lays};
ghost use Rattle.flattening.specs.Flattens.{Ready};

use composing::Layout;
use format::{ByteOffset, EntryNumber};
pub use format::{Check, Placed, Refusal, Stamp};
use opening::Image;
use pairs::{Pair, Parent};

// How many of the pair's sectors are stored, wherever the block will be.
fn count_stored<'a>(pair: Pair<'a>) -> u64
    ensures { (block : ℕ) → result ≡ length (stored_of block (sector_of pair.entry) (held pair.entry.child).count).items }
{
    let mut stored: u64 = 0;
    // an iteration for each address, whose sector is compared with those at lower ones, up to the first that is equal
    for n in 0..pair.child.found.count() {
        let here = EntryNumber(n);
        if 0 < pair.sector(here).len() && pair.is_new(here) {
            stored += 1;
        }
    }
    stored
}

// Writes the sectors that are stored, behind the place of the block's header, and the table's entries.
fn put_entries<'a, 'b>(buf: &'b mut [u8], pair: Pair<'a>, at: Layout)
    requires { Lays buf.old (sector_of pair) (held pair.child).count (size_of (written_in pair)) at }
    ensures { buf.new ≡ filled buf.old (sector_of pair.entry) (held pair.entry.child).count at }
{
    let mut stored: u64 = 0;
    // an iteration for each address, whose sector is compared with those stored before it, up to the first that is equal
    for n in 0..pair.child.found.count() {
        stored = composing::enter(buf, at, n, pair.sector(EntryNumber(n)), stored);
    }
}

// Writes only the sectors that are stored, behind the place of the block's header, where there is room up to the table of `most`. How many they are.
fn put_sectors<'a, 'b>(buf: &'b mut [u8], pair: Pair<'a>, most: Layout) -> u64
    requires { Lays buf.old (sector_of pair) (held pair.child).count (size_of (written_in pair)) most }
    ensures { let items = (stored_of most.used (sector_of pair.entry) (held pair.entry.child).count).items in
        (result ≡ length items) × (buf.new ≡ overwrite buf.old (most.used + block_header_length) (flattened items)) }
{
    let mut stored: u64 = 0;
    // an iteration for each address, whose sector is compared with those stored before it, up to the first that is equal
    for n in 0..pair.child.found.count() {
        let sector = pair.sector(EntryNumber(n));
        if sector.len() == 0 {
            continue;
        }
        let step = storing::store_among(buf, ByteOffset(most.used), sector, stored);
        stored = step.stored;
    }
    stored
}

// Flattening a pair that has sectors, of this size, all of whose checks but 35 have passed. There may be no room, so those that are stored are counted first.
fn flatten_tight<'a, 'b, 'c>(
    buffer: &'b mut [u8],
    pair: Pair<'a>,
    size: u64,
    stamp: Stamp<'c>,
) -> Result<Placed, Refusal>
    requires { Ready buffer.old pair stamp.application.now size }
    ensures { answered result buffer.new ≡ flatten buffer.old pair.entry.child.bytes.now pair.entry.parent.bytes.now stamp.entry.application.now stamp.entry.major stamp.entry.minor stamp.entry.media_type stamp.entry.created stamp.entry.written }
{
    let count = pair.child.found.count();
    let stored = count_stored(pair);
    let at = composing::lay_out(count, size, stored);
    let end = at.end;
    let index = at.index;
    let length = buffer.len() as u64;
    if length < end {
        return Err(Refusal::of(Check::NoRoom));
    }
    records::put_image(buffer, count, stamp);
    put_entries(buffer, pair, at);
    composing::finish(buffer, count, size, stored, at, stamp.written);
    Ok(Placed { used: end, index })
}

// The same where there is room even if all sectors are stored, as `most` has it: they are written right away, which tells how many are stored, and so where the
// entries stand. With those, the same sectors are written over themselves.
fn flatten_roomy<'a, 'b, 'c>(
    buffer: &'b mut [u8],
    pair: Pair<'a>,
    size: u64,
    most: Layout,
    stamp: Stamp<'c>,
) -> Result<Placed, Refusal>
    requires { Ready buffer.old pair stamp.application.now size
        × (most ≡ layout_of (held pair.child).count size (length (written_in pair))) × (most.end ≤ length buffer.old) }
    ensures { answered result buffer.new ≡ flatten buffer.old pair.entry.child.bytes.now pair.entry.parent.bytes.now stamp.entry.application.now stamp.entry.major stamp.entry.minor stamp.entry.media_type stamp.entry.created stamp.entry.written }
{
    let count = pair.child.found.count();
    records::put_image(buffer, count, stamp);
    let stored = put_sectors(buffer, pair, most);
    let at = composing::lay_out(count, size, stored);
    put_entries(buffer, pair, at);
    composing::finish(buffer, count, size, stored, at, stamp.written);
    let end = at.end;
    let index = at.index;
    Ok(Placed { used: end, index })
}

// The same, of so many sectors: 35 needs a count only where there is no room for all of them.
fn flatten_some<'a, 'b, 'c>(
    buffer: &'b mut [u8],
    pair: Pair<'a>,
    size: u64,
    sectors: u64,
    stamp: Stamp<'c>,
) -> Result<Placed, Refusal>
    requires { Ready buffer.old pair stamp.application.now size × (sectors ≡ length (written_in pair)) }
    ensures { answered result buffer.new ≡ flatten buffer.old pair.entry.child.bytes.now pair.entry.parent.bytes.now stamp.entry.application.now stamp.entry.major stamp.entry.minor stamp.entry.media_type stamp.entry.created stamp.entry.written }
{
    let most = composing::lay_out(pair.child.found.count(), size, sectors);
    let length = buffer.len() as u64;
    if length < most.end {
        return flatten_tight(buffer, pair, size, stamp);
    }
    flatten_roomy(buffer, pair, size, most, stamp)
}

// Flattening a pair whose child has a table of the first kind, after 31 and 33.
fn flatten_opened<'a, 'b, 'c>(
    buffer: &'b mut [u8],
    child: Image<'a>,
    parent: &'a [u8],
    stamp: Stamp<'c>,
) -> Result<Placed, Refusal>
    requires { ((held child).kind ≡ First) × (lent_verdict buffer.old stamp.application.now ≡ Ok tt) }
    ensures { answered result buffer.new ≡ flatten buffer.old child.entry.bytes.now parent.now stamp.entry.application.now stamp.entry.major stamp.entry.minor stamp.entry.media_type stamp.entry.created stamp.entry.written }
{
    let opened = opening::open(parent);
    let parent = Parent {
        bytes: parent,
        opened,
    };
    pair_checking::pair_verdict(child, parent)?;
    let pair = Pair { child, parent };
    let size = pair.size();
    let sectors = pair.count_written();
    pair.sizes_verdict(size, sectors)?;
    if sectors == 0 {
        return aaru::create(buffer, child.found.count(), stamp);
    }
    flatten_some(buffer, pair, size, sectors, stamp)
}

// Flattening a pair whose child opened, after 31 and 33: 74 where its table is of the second kind.
fn flatten_child<'a, 'b, 'c>(
    buffer: &'b mut [u8],
    child: Image<'a>,
    parent: &'a [u8],
    stamp: Stamp<'c>,
) -> Result<Placed, Refusal>
    requires { lent_verdict buffer.old stamp.application.now ≡ Ok tt }
    ensures { answered result buffer.new ≡ flatten buffer.old child.entry.bytes.now parent.now stamp.entry.application.now stamp.entry.major stamp.entry.minor stamp.entry.media_type stamp.entry.created stamp.entry.written }
{
    child.found.kind_verdict()?;
    flatten_opened(buffer, child, parent, stamp)
}

// Makes an image at the start of the buffer that reads as the child over its parent: what a creation with the child's count and one commit, at the last time,
// of all sectors of the pair would leave and answer, or the creation alone where there are none. Or says why it can't: 31, 33, the child's opening numbers, 74
// where its table is of the second kind, the first refusal of a sector other than 21, by rising address and as `read_over` gives it, 40 where sizes differ, 30,
// 35. Later bytes of the buffer stay as they are.
pub fn flatten<'a, 'b, 'c>(
    buffer: &'b mut [u8],
    child: &'a [u8],
    parent: &'a [u8],
    stamp: Stamp<'c>,
) -> Result<Placed, Refusal>
    ensures { answered result buffer.new ≡ flatten buffer.old child.now parent.now stamp.entry.application.now stamp.entry.major stamp.entry.minor stamp.entry.media_type stamp.entry.created stamp.entry.written }
{
    arguments::lent_verdict(buffer, stamp.application)?;
    let opened = opening::open(child)?;
    flatten_child(buffer, opened, parent, stamp)
}
