// Internal: a new image with sectors, as a creation and one commit to it leave it. Where all of it stands, the entries of its table with
// the sectors that are stored for them, and all that comes behind. Which sectors there are is the caller's: no sector of a new disc is
// written, so only they are searched.
//
// Cost: each sector is compared with those stored before it, up to the first that is equal; else linear in what is written.
#![tactic(auto)]

ghost use Rattle.std.specs.Prelude.{◌≢◌, ◌≡◌, ◌≤◌};
ghost use Rattle.format.specs.Writing.{most_sectors, largest_size, most_addresses};
ghost use Rattle.composing.specs.Composes.{layout_of, Enters, Entered, Filled, Finished};

use format::{ByteOffset, CREATED_ENTRIES, ItemNumber};

// Where the index of the new image stands, and where it ends; where the table and the index behind it stand, and where all ends; the
// table's shift.
#[derive(Clone, Copy)]
pub struct Layout {
    pub first: ByteOffset,
    pub used: u64,
    pub table: ByteOffset,
    pub index: ByteOffset,
    pub end: u64,
    pub shift: u64,
}

// Where all of it stands, if so many sectors are stored, one at least.
pub fn lay_out(count: u64, size: u64, stored: u64) -> Layout
    requires { (count ≤ most_sectors) × (size ≤ largest_size) × (stored ≤ most_addresses) × (stored ≢ 0) }
    ensures { result ≡ layout_of count size stored }
{
    let first = CREATED_ENTRIES + 8 * count;
    let used = first + 20 + 16;
    let table = used + (36 + stored * size);
    let index = table + (49 + 8 * count);
    let end = index + (20 + 2 * 16);
    // the largest item number is that of the last stored sector
    let shift = planning::shift_for(ItemNumber(stored - 1));
    Layout {
        first: ByteOffset(first),
        used,
        table: ByteOffset(table),
        index: ByteOffset(index),
        end,
        shift,
    }
}

// Writes entry a of the table, 0 if there is no sector; its sector is stored if it equals none of the `stored` ones. How many are
// stored then.
pub fn enter(buf: &mut [u8], at: Layout, a: u64, sector: &[u8], stored: u64) -> u64
    requires { Enters buf.old at a sector.now stored }
    ensures { Entered buf.old buf.new at a sector.now stored result }
{
    let table = at.table;
    let place = table.0 + 49 + 8 * a;
    if sector.len() == 0 {
        fields::put(buf, place, 8, 0);
        return stored;
    }
    let step = storing::store_among(buf, ByteOffset(at.used), sector, stored);
    let entry = storing::encode(at.shift, step.pointer);
    fields::put(buf, place, 8, entry);
    step.stored
}

// What is left when the stored sectors and the table's entries stand: the headers of the block and the table, the index, and then the
// image's two fields.
pub fn finish(buf: &mut [u8], count: u64, size: u64, stored: u64, at: Layout, written: u64)
    requires { Filled buf.old count size stored at }
    ensures { Finished buf.old buf.new count size stored at written }
{
    let used = at.used;
    let first = at.first;
    let table = at.table;
    let index = at.index;
    records::seal_block(buf, ByteOffset(used), size, stored);
    records::seal_table(buf, table, at.shift, count);
    indexing::put_index(buf, used, first, index, table, 1, stored);
    records::set_header(buf, index, written);
}
