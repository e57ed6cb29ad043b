// Internal: the index that a commit writes: the old entries in order, the table's replaced in its place, every 'CKSM' entry left
// out, and the new data block's last.
//
// Cost: two passes over the old entries, one to count and one to write, and one over the new ones for their checksum.
#![tactic(auto)]

ghost use Rattle.std.specs.Prelude.{◌≡◌, ℕ, ◌+◌, ◌*◌, ◌≤◌, ◌<◌, length, take};
ghost use Rattle.fields.specs.Bytes.{overwrite};
ghost use Rattle.format.specs.Layouts.{CKSM, index_header_length, entry_length, entry_count, entries, index_bytes};
ghost use Rattle.format.specs.Opening.{is_type};
ghost use Rattle.format.specs.Committing.{kept_entry, kept_entries};
ghost use Rattle.format.specs.Facts.{block_entry};
ghost use Rattle.indexing.specs.Entries.{new_entries, Indexes, entries_bytes};

use fields::{get, part};
use format::{ByteOffset, Entry};
use index::{Index, entry};

// An old entry as the new index has it, with the new table at `table`.
fn kept_entry(e: Entry, table: ByteOffset) -> Entry
    ensures { result ≡ kept_entry table.0 e }
{
    if index::is_user_data(e, b"DDT*") {
        return Entry { offset: table, ..e };
    }
    e
}

// The entry is for a block of checksums, which the new index leaves out.
fn is_checksums(e: Entry) -> bool
    ensures { result ≡ is_type CKSM e }
{
    index::is_type(e, b"CKSM")
}

// How many entries of an index the new one keeps, wherever the new table is.
pub fn count_kept<'a>(index: Index<'a>) -> u64
    ensures { ((table : ℕ) → result ≡ length (kept_entries table (entries index.entry.bytes.now index.entry.at.0))) × (result ≤ entry_count index.entry.bytes.now index.entry.at.0) }
{
    let mut kept: u64 = 0;
    // an iteration for each old entry
    for i in 0..index.count() {
        if is_checksums(index.entry(i)) {
            continue;
        }
        kept += 1;
    }
    kept
}

// Writes the kept entries of the index at o, which lies in the first `used` bytes, at `at`.
fn put_kept(buf: &mut [u8], used: u64, o: ByteOffset, at: ByteOffset, table: ByteOffset)
    requires { (o.0 + index_header_length + entry_length * entry_count (take used buf.old) o.0 ≤ used) × (used ≤ at.0)
        × (at.0 + entry_length * length (kept_entries table.0 (entries (take used buf.old) o.0)) ≤ length buf.old) }
    ensures { buf.new ≡ overwrite buf.old at.0 (entries_bytes (kept_entries table.0 (entries (take used buf.old) o.0))) }
{
    let count = get(part(buf, 0, used), o.0 + 4, 8);
    let mut q = at.0;
    // an iteration for each old entry
    for i in 0..count {
        let e = entry(part(buf, 0, used), ByteOffset(o.0 + 20 + 16 * i));
        if is_checksums(e) {
            continue;
        }
        records::put_entry(buf, ByteOffset(q), kept_entry(e, table));
        q += 16;
    }
}

// Writes the new data block's entry at `at`, if there is one; the block starts at `block`. Answers how many entries were written.
fn put_block_entry(buf: &mut [u8], at: ByteOffset, block: ByteOffset, stored: u64) -> u64
    requires { at.0 + entry_length * length (block_entry block.0 stored) ≤ length buf.old }
    ensures { (result ≡ length (block_entry block.0 stored)) × (buf.new ≡ overwrite buf.old at.0 (entries_bytes (block_entry block.0 stored))) }
{
    if stored == 0 {
        return 0;
    }
    records::put_entry(buf, at, records::user_data_entry(b"DBLK", block));
    1
}

// Writes the new index at `at`, for an image of `used` bytes with its index at o: `kept` of its entries are kept, the new table is
// at `table`, and `stored` sectors are stored in a block at the image's end.
pub fn put_index(
    buf: &mut [u8],
    used: u64,
    o: ByteOffset,
    at: ByteOffset,
    table: ByteOffset,
    kept: u64,
    stored: u64,
)
    requires { Indexes buf.old used o.0 at.0 table.0 kept stored }
    ensures { buf.new ≡ overwrite buf.old at.0 (index_bytes (new_entries (take used buf.old) o.0 table.0 stored)) }
{
    let start = at.0 + 20;
    put_kept(buf, used, o, ByteOffset(start), table);
    let more = put_block_entry(buf, ByteOffset(start + 16 * kept), ByteOffset(used), stored);
    records::seal_index(buf, at, kept + more);
}
